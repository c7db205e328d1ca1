// A whole number from text: digits, with a minus before them or none.
ghost use Rattle.std.specs.Prelude.{◌≡◌, ◌≤◌, length};
ghost use Rattle.decimal.specs.Reading.{all_digits, value_from, number_of, read_of, stretch};

use crate::answers::{NotRead, Whole};

fn all_digits(s: &[u8]) -> bool
    ensures { result ≡ all_digits s.now }
{
    s.iter().all(|b| b.is_ascii_digit())
}

fn value(s: &[u8]) -> u64
    requires { length s.now ≤ 15 }
    ensures { result ≡ value_from 0 s.now }
{
    let mut n: u64 = 0;
    for b in s {
        n = n * 10 + u64::from(b.saturating_sub(b'0'));
    }
    n
}

// What stands after the sign.
fn number(s: &[u8], minus: bool) -> Result<Whole, NotRead>
    ensures { result ≡ number_of minus s.now }
{
    if s.is_empty() || !all_digits(s) {
        return Err(NotRead::NotANumber);
    }
    if 15 < s.len() {
        return Err(NotRead::TooLong);
    }
    Ok(Whole {
        minus,
        size: value(s),
    })
}

fn read_all(s: &[u8]) -> Result<Whole, NotRead>
    ensures { result ≡ read_of s.now }
{
    match s {
        [] => Err(NotRead::Empty),
        [b'-', digits @ ..] => number(digits, true),
        _ => number(s, false),
    }
}

// The bytes from `from` up to `to`, as far as the text has them.
pub fn read(text: &[u8], from: usize, to: usize) -> Result<Whole, NotRead>
    ensures { result ≡ read_of (stretch text.now from to) }
{
    read_all(text.get(from..to.min(text.len())).unwrap_or(&[]))
}
