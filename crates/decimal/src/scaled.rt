// A double as a whole number of a decimal unit, rounded to nearest, a tie away from zero: exactly, from its own digits and exponent.
ghost use Rattle.std.specs.Prelude.{◌≡◌, ◌+◌, ◌-◌, ◌*◌, ◌/◌, ◌^◌, ◌≤◌, ◌<◌, min};
ghost use Rattle.decimal.specs.Scaled.{away, sized_of, units_of};

use crate::answers::{Units, Whole};
use crate::small::ten_to;

const TWO_25: u64 = 1 << 25;

const TWO_26: u64 = 1 << 26;

const TWO_52: u64 = 1 << 52;

const TWO_63: u64 = 1 << 63;

const TEN_18: u64 = 1000000000000000000;

// The number high * 2^26 + low.
#[derive(Clone, Copy)]
struct Wide {
    high: u64,
    low: u64,
}

// m * p, by halves of m: the product can have 73 binary digits.
fn product(m: u64, p: u64) -> Wide
    requires { (m < 2 ^ 53) × (p ≤ 1000000) }
    ensures { (result.high * 2 ^ 26 + result.low ≡ m * p) × (result.low < 2 ^ 26) × (result.high < 2 ^ 48) }
{
    let a = m / TWO_26;
    let b = m % TWO_26;
    let c = b * p;
    Wide {
        high: a * p + c / TWO_26,
        low: c % TWO_26,
    }
}

// (high * 2^26 + low) / 2^(26 + k), to nearest: low can't tell.
fn lowered(high: u64, k: u64) -> u64
    requires { (high < 2 ^ 48) × (0 < k) }
    ensures { (result ≡ (high + 2 ^ (k - 1)) / 2 ^ k) × (result < 10 ^ 18) }
{
    if 48 < k {
        return 0;
    }
    (high + (1 << (k - 1))) >> k
}

// (high * 2^26 + low) * 2^k / 2^26, to nearest, and no more than 10^18.
fn raised(high: u64, low: u64, k: u64) -> u64
    requires { (2 ^ 26 ≤ high) × (high < 2 ^ 48) × (low < 2 ^ 26) }
    ensures { result ≡ min (high * 2 ^ k + (low * 2 ^ k + 2 ^ 25) / 2 ^ 26) (10 ^ 18) }
{
    if 33 < k {
        return TEN_18;
    }
    let u = 1 << k;
    if TEN_18 / u < high {
        return TEN_18;
    }
    (high * u + (low * u + TWO_25) / TWO_26).min(TEN_18)
}

// m * 2^place / 2^1074 * p, to nearest, and no more than 10^18.
fn nearest(m: u64, place: u64, p: u64) -> u64
    requires { (m < 2 ^ 53) × (p ≤ 1000000) × (0 < p) × (1048 ≤ place → 2 ^ 52 ≤ m) }
    ensures { result ≡ min (away (m * 2 ^ place * p) (2 ^ 1074)) (10 ^ 18) }
{
    let w = product(m, p);
    let high = w.high;
    if place < 1048 {
        return lowered(high, 1048 - place);
    }
    raised(high, w.low, place - 1048)
}

fn sized(minus: bool, q: u64) -> Units
    ensures { result ≡ sized_of minus q }
{
    if q < TEN_18 {
        // Zero has no minus.
        return Units::Whole(Whole {
            minus: minus && q != 0,
            size: q,
        });
    }
    Units::TooLarge(minus)
}

// x in units of 10^-decimals.
pub fn units(x: f64, decimals: u8) -> Units
    requires { decimals ≤ 6 }
    ensures { result ≡ units_of decimals x }
{
    if float::is_nan(x) {
        return Units::NotANumber;
    }
    let b = x.to_bits();
    let minus = TWO_63 <= b;
    let e = b % TWO_63 / TWO_52;
    let t = b % TWO_52;
    if e == 2047 {
        return Units::Infinite(minus);
    }
    let p = ten_to(decimals);
    if e == 0 {
        return sized(minus, nearest(t, 0, p));
    }
    sized(minus, nearest(TWO_52 + t, e - 1, p))
}
