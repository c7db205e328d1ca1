// The numbers on f64 as the definition has them: the magnitude, the larger of a value and 0, the tests, the square root, the logarithm. They go by
// document 01's rules, where the library's leave -0.0 or ask twice.
#![tactic(auto)]

mod log;
mod parts;
mod root;

ghost use Rattle.std.specs.Prelude.{◌≡◌};
ghost use Rattle.std.specs.Float.Ieee.{is_nan};
ghost use Rattle.definition.specs.Num.{abs_of, max0, is_infinite, is_finite};

pub use log::{ln, ln_two_pi};
pub use root::sqrt;

// Clears the sign, of a zero and of an infinity too. A NaN stays a NaN. In this form it is compiled to one instruction where a sum or a product follows;
// the library's abs asks twice.
pub fn abs(x: f64) -> f64
    ensures { result ≡ abs_of x }
{
    if x > 0.0 { x } else { 0.0 - x }
}

// `.max(0.0)` of filter.rs by document 01's rule: x where it is above 0, else +0.0; so +0.0 of a NaN. The library's max leaves -0.0 as it is.
pub fn max0(x: f64) -> f64
    ensures { result ≡ max0 x }
{
    if x > 0.0 { x } else { 0.0 }
}

pub fn is_nan(x: f64) -> bool
    ensures { result ≡ is_nan x }
{
    x.is_nan()
}

pub fn is_infinite(x: f64) -> bool
    ensures { result ≡ is_infinite x }
{
    x.is_infinite()
}

pub fn is_finite(x: f64) -> bool
    ensures { result ≡ is_finite x }
{
    x.is_finite()
}
