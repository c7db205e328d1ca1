// A whole number of a decimal unit as text: right-aligned in a field, with a point before its last digits.
ghost use Rattle.std.specs.Prelude.{◌≡◌, ◌+◌, ◌≤◌, ◌<◌, ◌++◌, length, drop, replicate};
ghost use Rattle.decimal.specs.Printed.{places_of, digits_onto, sign_of, sign_width, fraction_onto, point_width, Onto, fits_in, put_in, plain_of, Added};

use crate::answers::Whole;
use crate::small::ten_to;

// How many digits n has, one for 0.
fn places(n: u64) -> usize
    ensures { (result ≡ places_of n) × (result ≤ 20) }
{
    n.max(1).ilog10() as usize + 1
}

fn sign_width(minus: bool) -> usize
    ensures { (result ≡ sign_width minus) × (result ≤ 1) }
{
    usize::from(minus)
}

fn point_width(decimals: u8) -> usize
    requires { decimals ≤ 6 }
    ensures { (result ≡ point_width decimals) × (result ≤ 7) }
{
    if decimals == 0 {
        return 0;
    }
    decimals as usize + 1
}

fn figure(d: u64) -> u8
    requires { d < 10 }
    ensures { result ≡ 48 + d }
{
    b'0' + d as u8
}

// The last k digits of n, at `from`.
fn spell(out: &mut [u8], from: usize, k: usize, n: u64)
    requires { from + k ≤ length out.old }
    ensures { Onto from (digits_onto k n (drop (from + k) out.old)) out.old out.new }
{
    let mut rest = n;
    // By index: the proof says of each place what stands behind it.
    for i in (0..k).rev() {
        out[from + i] = figure(rest % 10);
        rest /= 10;
    }
}

// k blanks, at `from`.
pub fn blanks(out: &mut [u8], from: usize, k: usize)
    requires { from + k ≤ length out.old }
    ensures { Onto from (replicate k 32 ++ drop (from + k) out.old) out.old out.new }
{
    out[from..from + k].fill(b' ');
}

fn sign(out: &mut [u8], from: usize, minus: bool)
    requires { from + sign_width minus ≤ length out.old }
    ensures { Onto from (sign_of minus ++ drop (from + sign_width minus) out.old) out.old out.new }
{
    if minus {
        out[from] = b'-';
    }
}

// The point and the digits after it; nothing for no decimals.
fn fraction(out: &mut [u8], from: usize, decimals: u8, part: u64)
    requires { from + point_width decimals ≤ length out.old }
    ensures { Onto from (fraction_onto decimals part (drop (from + point_width decimals) out.old)) out.old out.new }
{
    if decimals == 0 {
        return;
    }
    spell(out, from + 1, decimals as usize, part);
    out[from] = b'.';
}

// The field, from its end to its start: each part leaves what stands after it.
fn field(
    out: &mut [u8],
    at: usize,
    pad: usize,
    minus: bool,
    k: usize,
    whole: u64,
    decimals: u8,
    part: u64,
)
    requires { (at + (pad + (sign_width minus + (k + point_width decimals))) ≤ length out.old) × (decimals ≤ 6) }
    ensures { Onto at (replicate pad 32 ++ (sign_of minus ++ digits_onto k whole (fraction_onto decimals part (drop (at + (pad + (sign_width minus + (k + point_width decimals)))) out.old))))
        out.old out.new }
{
    let start = at + pad;
    let from = start + sign_width(minus);
    let point = from + k;
    fraction(out, point, decimals, part);
    spell(out, from, k, whole);
    sign(out, start, minus);
    blanks(out, at, pad);
}

// n units of 10^-decimals into out[at..at + width]. Where it does not fit nothing is written.
pub fn put(out: &mut [u8], at: usize, width: usize, n: Whole, decimals: u8) -> bool
    requires { decimals ≤ 6 }
    ensures value { result ≡ fits_in (length out.old) at width decimals n.minus n.size }
    ensures out_after { out.new ≡ put_in at width decimals n.minus n.size out.old }
{
    let Whole { minus, size } = n;
    let p = ten_to(decimals);
    let whole = size / p;
    let k = places(whole);
    let need = sign_width(minus) + (k + point_width(decimals));

    // The field's end is not added up before the test: the sum could wrap.
    if out.len() < at || out.len() - at < width || width < need {
        return false;
    }
    field(out, at, width - need, minus, k, whole, decimals, size % p);
    true
}

// The digits of n from `at` on, with nothing around them. Answers where they end.
pub fn plain(out: &mut [u8], at: usize, n: u64) -> usize
    requires { at + 20 ≤ length out.old }
    ensures { Added at (plain_of n) out.old result out.new × (result ≤ at + 20) }
{
    let k = places(n);
    spell(out, at, k, n);
    at + k
}
