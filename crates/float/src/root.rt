// The square root of IEEE 754: a guess, an exact test of it and of the two numbers beside it, and the long way where the test fails.
ghost use Rattle.std.specs.Prelude.{◌≡◌, ◌+◌, ◌*◌, ◌^◌, ◌≤◌, ◌<◌, IfSome};
ghost use Rattle.definition.specs.Root.{sqrt_of};
ghost use Rattle.laws.specs.Squares.{IsRoot, NearRoot};
ghost use Rattle.float.specs.Inner.{Beside};

use crate::parts::{TWO_52, parts};

const TWO_27: u64 = 1 << 27;

const TWO_25: u64 = 1 << 25;

// The root of m * 2^54, cut to a whole number: a binary digit a turn.
// r is what the digits so far leave, and w holds the digits to come.
fn long_root(m: u64) -> u64
    requires { m < 2 ^ 54 }
    ensures { IsRoot (m * 2 ^ 54) result }
{
    let mut w = m << 10;
    let mut q = 0u64;
    let mut r = 0u64;
    for _ in 0..54usize {
        let t = 4 * q + 1;
        r = r * 4 + (w >> 62);
        w = w << 2;
        q = q * 2;
        if t <= r {
            r = r - t;
            q = q + 1;
        }
    }
    q
}

// The number high * 2^52 + low.
#[derive(Drop)]
struct Wide {
    high: u64,
    low: u64,
}

// g * g, by halves of 27 digits.
fn square(g: u64) -> Wide
    requires { g < 2 ^ 54 }
    ensures { (result.high * 2 ^ 52 + result.low ≡ g * g) × (result.low < 2 ^ 52) }
{
    let h = g / TWO_27;
    let l = g % TWO_27;
    let mid = h * l * 2;
    let low = mid % TWO_25 * TWO_27 + l * l;
    Wide {
        high: h * h * 4 + mid / TWO_25 + low / TWO_52,
        low: low % TWO_52,
    }
}

// m * 2^52 less (g - 1) * (g - 2), where that is from 1 up to 6 * g.
// A whole number q is nearest to the root of n where q * (q - 1) < n <= q * (q + 1). So in that range the nearest one is g - 1, g or g + 1.
fn beside(m: u64, g: u64) -> Option<u64>
    requires { (m < 2 ^ 54) × (g < 2 ^ 54) }
    ensures { IfSome result (Beside m g) }
{
    let s = square(g);
    if s.high <= m + 8 {
        let d = m + 8 - s.high;
        if d < 16 {
            let upper = d * TWO_52 + 3 * g;
            let lower = 8 * TWO_52 + 2 + s.low;
            if lower < upper {
                let u = upper - lower;
                if u <= 6 * g {
                    return Some(u);
                }
            }
        }
    }
    None
}

// A guess at the root of the number with the bit pattern b, from 1 up to 4, in units of 2^-52: a start by the pattern's half, three of Newton's
// steps for 1 / root, one for the root. Nothing is proved of how near it is.
fn guess(b: u64) -> u64
    requires { b < 1025 * 2 ^ 52 }
    ensures { (0 < result) × (result < 2 ^ 54) }
{
    let a = f64::from_bits(b);
    let h = 0.5 * a;
    let mut y = f64::from_bits(0x5FE6EB50C7B537A9 - b / 2);
    y = y * (1.5 - h * y * y);
    y = y * (1.5 - h * y * y);
    y = y * (1.5 - h * y * y);
    let s = a * y;
    let r = s + 0.5 * y * (a - s * s);
    if r > 0.0 {
        let g = f64::to_bits(r);
        if 0x3FE0000000000000 < g {
            if g < 0x4020000000000000 {
                return g - 0x3FE0000000000000;
            }
        }
    }
    TWO_52
}

// The whole number nearest to the root of m * 2^52: beside the guess if an exact test says so, and else the long way.
fn rounded(m: u64, b: u64) -> u64
    requires { (2 ^ 52 ≤ m) × (m < 2 ^ 54) × (b < 1025 * 2 ^ 52) }
    ensures { NearRoot (m * 2 ^ 52) result }
{
    let g = guess(b);
    match beside(m, g) {
        // g * (g - 1) and g * (g + 1), each less (g - 1) * (g - 2)
        Some(u) => g - 1 + (2 * g - 2 < u) as u64 + (4 * g - 2 < u) as u64,
        None => (long_root(m) + 1) / 2,
    }
}

// Not the library's sqrt: the definition has a root of its own, and three of must-fail's wrong programs are of this one.
pub fn sqrt(x: f64) -> f64
    ensures { result ≡ sqrt_of x }
{
    if x > 0.0 {
        if x == f64::INFINITY {
            return x;
        }
        let p = parts(x);
        let odd = p.place % 2;
        let q = rounded(p.digits << odd, p.digits + (1022 + odd) * TWO_52);
        return f64::from_bits((p.place / 2 + 485) * TWO_52 + q);
    }
    if x == 0.0 {
        return x;
    }
    f64::NAN
}
