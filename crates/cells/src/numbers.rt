// A number at the right of its field, or a word for what no number can say: `no number`, `infinite`, `-infinite`, and `too large` for 10^18 units or more and for
// what does not fit into the field.
ghost use Rattle.std.specs.Prelude.{◌≡◌, false, ◌≤◌, length};
ghost use Rattle.decimal.specs.declared.answers.Units.TheVariants as units;
ghost use Rattle.decimal.specs.Reading.{whole as of_digits};
ghost use Rattle.decimal.specs.Scaled.{units_of};
ghost use Rattle.cells.specs.Cells.{fits, written, said_of, cell_of};

use crate::words::word_right;
use decimal::answers::{Units, Whole};

// The digits, or that they are too large for the field.
fn whole(out: &mut [u8], at: usize, width: usize, n: Whole, decimals: u8) -> bool
    requires { decimals ≤ 6 }
    ensures value { result ≡ fits (length out.old) at width (length (said_of width decimals (units.Whole n))) }
    ensures out_after { out.new ≡ written (length (said_of width decimals (units.Whole n))) at width (cell_of width decimals (units.Whole n)) out.old }
{
    if decimal::put(out, at, width, n, decimals) {
        return true;
    }
    word_right(out, at, width, b"too large")
}

// Units of 10^-decimals, or their word.
fn said(out: &mut [u8], at: usize, width: usize, u: Units, decimals: u8) -> bool
    requires { decimals ≤ 6 }
    ensures value { result ≡ fits (length out.old) at width (length (said_of width decimals u)) }
    ensures out_after { out.new ≡ written (length (said_of width decimals u)) at width (cell_of width decimals u) out.old }
{
    match u {
        Units::Whole(n) => whole(out, at, width, n, decimals),
        Units::NotANumber => word_right(out, at, width, b"no number"),
        Units::Infinite(true) => word_right(out, at, width, b"-infinite"),
        Units::Infinite(false) => word_right(out, at, width, b"infinite"),
        Units::TooLarge(_) => word_right(out, at, width, b"too large"),
    }
}

// Every word has 9 bytes or fewer. A narrower field is refused whatever is to stand in it, so that the answer does not hang on the number.
fn cell(out: &mut [u8], at: usize, width: usize, u: Units, decimals: u8) -> bool
    requires { decimals ≤ 6 }
    ensures value { result ≡ fits (length out.old) at width 9 }
    ensures out_after { out.new ≡ written 9 at width (cell_of width decimals u) out.old }
{
    if width < 9 {
        return false;
    }
    said(out, at, width, u, decimals)
}

// x with so many decimals. Where the field is not in out, or is narrower than 9, nothing is written and the answer is false.
pub fn number(out: &mut [u8], at: usize, width: usize, x: f64, decimals: u8) -> bool
    requires { decimals ≤ 6 }
    ensures value { result ≡ fits (length out.old) at width 9 }
    ensures out_after { out.new ≡ written 9 at width (cell_of width decimals (units_of decimals x)) out.old }
{
    cell(out, at, width, decimal::units(x, decimals), decimals)
}

// x counts thousandths: it is rounded to a whole number of them, which is shown with three decimals.
pub fn thousandths(out: &mut [u8], at: usize, width: usize, x: f64) -> bool
    ensures value { result ≡ fits (length out.old) at width 9 }
    ensures out_after { out.new ≡ written 9 at width (cell_of width 3 (units_of 0 x)) out.old }
{
    cell(out, at, width, decimal::units(x, 0), 3)
}

// A whole number. Its field may be narrower than 9: where neither the digits nor `too large` fit, nothing is written and the answer is false.
pub fn count(out: &mut [u8], at: usize, width: usize, n: u64) -> bool
    ensures value { result ≡ fits (length out.old) at width (length (said_of width 0 (units.Whole (of_digits false n)))) }
    ensures out_after { out.new ≡ written (length (said_of width 0 (units.Whole (of_digits false n)))) at width (cell_of width 0 (units.Whole (of_digits false n))) out.old }
{
    whole(
        out,
        at,
        width,
        Whole {
            minus: false,
            size: n,
        },
        0,
    )
}
