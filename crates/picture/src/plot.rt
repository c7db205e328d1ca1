// Where a number stands in the picture, and which numbers the axes name.

ghost use Rattle.std.specs.Prelude.{◌<◌, ◌≤◌};

use decimal::answers::Units;
use rows::{Check, Estimate, Run};

// The part of the picture, 800 by 400, that has the curves.
pub const LEFT: f64 = 72.0;

pub const RIGHT: f64 = 788.0;

pub const TOP: f64 = 52.0;

pub const BOTTOM: f64 = 342.0;

// What the curves span: offsets from lo to hi, microseconds, and times from 0 to last, seconds.
#[derive(Clone, Copy)]
pub struct Frame {
    pub lo: f64,
    pub hi: f64,
    pub last: f64,
}

// The band's edge: so many standard deviations from the mean.
pub fn edge(run: Run, t: usize, estimate: Estimate, deviations: f64) -> f64
    requires { t < 4096 }
{
    let c = estimate.first();
    rows::of(run.rows, t, c + rows::OFFSET)
        + deviations * rows::of(run.rows, t, c + rows::OFFSET_SD)
}

pub fn double(n: usize) -> f64 {
    std::num::nearest_u64_to_f64(n as u64)
}

// A place far outside is as good as any other there, and its number stays short. Not `clamp`: what is no number goes outside too.
fn clamped(x: f64) -> f64 {
    if x < -9999.0 {
        return -9999.0;
    }
    if x < 9999.0 { x } else { 9999.0 }
}

pub fn x_of(f: Frame, time: f64) -> f64 {
    if f.last == 0.0 {
        return (LEFT + RIGHT) / 2.0;
    }
    clamped(LEFT + (RIGHT - LEFT) * (time / f.last))
}

pub fn y_of(f: Frame, offset: f64) -> f64 {
    clamped(TOP + (BOTTOM - TOP) * ((f.hi - offset) / (f.hi - f.lo)))
}

// Not `min`, and below not `max`: of a zero and a minus zero they may give either.
fn lower(f: Frame, x: f64) -> Frame {
    let mut f = f;
    if x < f.lo {
        f.lo = x;
    }
    f
}

// The frame with room for x, if x is finite.
fn with(f: Frame, x: f64) -> Frame {
    if !float::is_finite(x) {
        return f;
    }
    let mut f = lower(f, x);
    if x > f.hi {
        f.hi = x;
    }
    f
}

fn with_check(f: Frame, run: Run, i: usize) -> Frame {
    if run.check(i) == Check::Missing {
        return f;
    }
    with(f, run.reading(i))
}

// Five hundredths more on either side; and some room where all is one number, or nothing is.
fn padded(f: Frame) -> Frame {
    if f.hi < f.lo {
        return Frame {
            lo: -1.0,
            hi: 1.0,
            ..f
        };
    }
    let span = f.hi - f.lo;
    let room = if span > 0.0 { span * 0.05 } else { 1.0 };
    Frame {
        lo: f.lo - room,
        hi: f.hi + room,
        ..f
    }
}

// Room for all checks and for the smoothed band. What else is outside is cut off: before the rate is known well the filtered band is wide.
pub fn around(run: Run) -> Frame {
    let mut f = Frame {
        lo: f64::INFINITY,
        hi: f64::NEG_INFINITY,
        last: 0.0,
    };
    for t in 0..run.n {
        f = with_check(f, run, 2 * t);
        f = with_check(f, run, 2 * t + 1);
        f = with(f, edge(run, t, Estimate::Smoothed, -2.0));
        f = with(f, edge(run, t, Estimate::Smoothed, 2.0));
        f.last = run.time(t);
    }
    padded(f)
}

// ---- the axes' numbers: a step of 1, 2 or 5 times a power of ten

fn factor(i: usize) -> f64 {
    if i % 3 == 1 { 2.5 } else { 2.0 }
}

// The least such step, from a thousandth on, that is not below `least`.
pub fn step(least: f64) -> f64 {
    let mut s = 0.001;
    for i in 0..90 {
        if s < least {
            s *= factor(i);
        }
    }
    s
}

// The whole number nearest to x; 0 where there is none of 18 digits.
pub fn rounded(x: f64) -> f64 {
    match decimal::units(x, 0) {
        Units::Whole(n) => {
            let d = std::num::nearest_u64_to_f64(n.size);
            if n.minus { -d } else { d }
        }
        _ => 0.0,
    }
}

// How many decimals show a step.
pub fn decimals(step: f64) -> u8
    ensures { result ≤ 3 }
{
    if step >= 1.0 {
        return 0;
    }
    if step >= 0.1 {
        return 1;
    }
    if step >= 0.01 { 2 } else { 3 }
}
