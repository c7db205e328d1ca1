// The natural logarithm of document 01.
ghost use Rattle.std.specs.Prelude.{◌≡◌, ◌<◌};
ghost use Rattle.std.specs.Float.Ieee.{minus};
ghost use Rattle.definition.specs.Log.{ln_of, ln_two_pi, log_of, series};

use crate::parts::{TWO_52, parts};

// 1, 1/3, 1/5 and so on to 1/23, each the nearest double.
const ODD: [f64; 12] = [
    1.0,
    0.3333333333333333,
    0.2,
    0.14285714285714285,
    0.1111111111111111,
    0.09090909090909091,
    0.07692307692307693,
    0.06666666666666667,
    0.058823529411764705,
    0.05263157894736842,
    0.047619047619047616,
    0.043478260869565216,
];

fn sum_odd(w: f64) -> f64
    ensures { result ≡ series w 11 11 }
{
    let mut q = ODD[11];
    for c in ODD[..11].iter().rev() {
        q = q * w + *c;
    }
    q
}

// The logarithm of 2^(j - 1074) * s.
fn log_of(j: u64, s: f64) -> f64
    requires { j < 4096 }
    ensures { result ≡ log_of (minus j 1074) s }
{
    let u = (s - 1.0) / (s + 1.0);
    let q = sum_odd(u * u);
    let k = j as i64 - 1074;
    let z = k as f64;
    let high = z * f64::from_bits(0x3FE62E42FEE00000);
    let low = z * f64::from_bits(0x3DEA39EF35793C76);
    high + (low + (u + u) * q)
}

pub fn ln(x: f64) -> f64
    ensures { result ≡ ln_of x }
{
    if x > 0.0 {
        if x == f64::INFINITY {
            return x;
        }
        let p = parts(x);
        let s = f64::from_bits(p.digits + 1022 * TWO_52);
        if s < 1.5 {
            return log_of(p.place, s);
        }
        return log_of(p.place + 1, s * 0.5);
    }
    if x == 0.0 {
        return f64::NEG_INFINITY;
    }
    f64::NAN
}

// ln 2π: the logarithm of twice 0x400921FB54442D18.
const LN_TWO_PI: f64 = 1.8378770664093453;

pub fn ln_two_pi() -> f64
    ensures { result ≡ ln_two_pi }
{
    LN_TWO_PI
}
