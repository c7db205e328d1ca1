// Doubles and their bit patterns, all NaNs as one. The library's from_bits and to_bits take no NaN.
#![tactic(auto)]

ghost use Rattle.std.specs.Prelude.{◌≡◌};
ghost use Rattle.std.specs.Float.{binary64};
ghost use Rattle.std.specs.Float.Ieee.{of_bits, to_bits};

// The double of a bit pattern, a NaN of every NaN's.
pub fn double(w: u64) -> f64
    ensures { result ≡ of_bits binary64 w }
{
    if w % 0x8000_0000_0000_0000 > 0x7FF0_0000_0000_0000 {
        return f64::NAN;
    }
    f64::from_bits(w)
}

// The bit pattern of a double, 7FF8000000000000 for every NaN.
pub fn pattern(x: f64) -> u64
    ensures { result ≡ to_bits binary64 x }
{
    if float::is_nan(x) {
        return 0x7FF8_0000_0000_0000;
    }
    f64::to_bits(x)
}
