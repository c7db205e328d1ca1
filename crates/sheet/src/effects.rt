// What a right line does: the settings after it, and its readings.
ghost use Rattle.std.specs.Prelude.{◌≡◌};
ghost use Rattle.sheet.specs.Effects.{spread_by, start_by, noise_by, settled, reading_of};

use crate::answers::{Noise, Season, Spread, Start};
use crate::kinds::{Name, Word};
use crate::parts::{Given, Tokens};

fn spread(a: Word, b: Word) -> Spread
    ensures { result ≡ spread_by a b }
{
    match a {
        Word::Variance => Spread::Variance(b.size()),
        _ => Spread::Sd(b.size()),
    }
}

fn start(t: Tokens) -> Start
    ensures { result ≡ start_by t }
{
    let spread = spread(t.third, t.fourth);
    match t.second {
        Word::Number(size) => Start::Known {
            minus: false,
            size,
            spread,
        },
        Word::Negative(size) => Start::Known {
            minus: true,
            size,
            spread,
        },
        _ => Start::Unknown,
    }
}

fn noise(t: Tokens) -> Noise
    ensures { result ≡ noise_by t }
{
    let first = spread(t.second, t.third);
    if t.fourth.is_end() {
        return Noise::One(first);
    }
    Noise::Two(first, spread(t.second, t.fourth))
}

pub fn after(g: Given, t: Tokens) -> Given
    ensures { result ≡ settled g t }
{
    let Word::Setting(name) = t.first else {
        return g;
    };
    match name {
        Name::Period => Given {
            period: Some(t.second.size()),
            ..g
        },
        Name::Noise => Given {
            noise: Some(noise(t)),
            ..g
        },
        Name::Radio => Given {
            radio: Some(spread(t.second, t.third)),
            ..g
        },
        Name::WanderOffset => Given {
            wander_offset: Some(spread(t.second, t.third)),
            ..g
        },
        Name::WanderRate => Given {
            wander_rate: Some(spread(t.second, t.third)),
            ..g
        },
        Name::StartOffset => Given {
            offset: Some(start(t)),
            ..g
        },
        Name::StartRate => Given {
            rate: Some(start(t)),
            ..g
        },
        Name::RateKeeps => Given {
            rate_keeps: Some(t.second.size()),
            ..g
        },
        Name::Season => Given {
            season: Some(Season {
                first: t.second.size(),
                keeps: t.third.size(),
            }),
            ..g
        },
    }
}

// A check's reading: NaN for none, 0.0 in a table, else the number.
pub fn reading(table: bool, w: Word) -> f64
    ensures { result ≡ reading_of table w }
{
    match w {
        Word::Planned => 0.0,
        Word::Number(n) => {
            if table {
                return 0.0;
            }
            std::num::nearest_u64_to_f64(n)
        }
        Word::Negative(n) => {
            if table {
                return 0.0;
            }
            -std::num::nearest_u64_to_f64(n)
        }
        _ => f64::NAN,
    }
}
