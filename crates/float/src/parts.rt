// A value that is finite and above zero, taken apart into its 53 digits and its place.
ghost use Rattle.std.specs.Prelude.{T};
ghost use Rattle.std.specs.Float.Ieee.Positive.{positive};
ghost use Rattle.float.specs.Inner.{Parted};

// the weight of a bit pattern's exponent, and of a normal value's leading digit
pub const TWO_52: u64 = 1 << 52;

#[derive(Drop)]
pub struct Apart {
    pub digits: u64,
    pub place: u64,
}

// A subnormal's digits are shifted up until the leading one stands where a normal's does.
pub fn parts(x: f64) -> Apart
    requires { T (positive x) }
    ensures { Parted x result.digits result.place }
{
    let b = f64::to_bits(x);
    let e = b >> 52;
    if e == 0 {
        let s = u64::leading_zeros(b) as u64 - 11;
        return Apart {
            digits: b << s,
            place: 52 - s,
        };
    }
    Apart {
        digits: b % TWO_52 + TWO_52,
        place: e + 51,
    }
}
