// The words of a line, and what each of them is.
ghost use Rattle.std.specs.Prelude.{◌≡◌, ◌≤◌, length};
ghost use Rattle.sheet.specs.Tokens.{setting_name, starts_check, other_word, plain_word, token_of, word_no, token_no, tokens_of};

use crate::kinds::{Name, Word};
use crate::parts::Tokens;
use decimal::answers::{NotRead, Span};

// The setting that the word names. No `match` on byte strings: it is checked byte by byte, and of its many ways to end seven did not close, the first at
// b"period" (`returns-in-period`): the search gave up.
fn setting_name(w: &[u8]) -> Option<Name>
    ensures { result ≡ setting_name w.now }
{
    if w == b"period".as_slice() {
        Some(Name::Period)
    } else if w == b"noise".as_slice() {
        Some(Name::Noise)
    } else if w == b"radio".as_slice() {
        Some(Name::Radio)
    } else if w == b"wander-offset".as_slice() {
        Some(Name::WanderOffset)
    } else if w == b"wander-rate".as_slice() {
        Some(Name::WanderRate)
    } else if w == b"start-offset".as_slice() {
        Some(Name::StartOffset)
    } else if w == b"start-rate".as_slice() {
        Some(Name::StartRate)
    } else if w == b"rate-keeps".as_slice() {
        Some(Name::RateKeeps)
    } else if w == b"season".as_slice() {
        Some(Name::Season)
    } else {
        None
    }
}

// Whether the first byte is a digit, a minus or a plus.
#[tactic(auto, unfolding(decimal::specs::Reading::is_digit))]
fn starts_check(w: &[u8]) -> bool
    ensures { result ≡ starts_check w.now }
{
    matches!(w, [b'+' | b'-' | b'0'..=b'9', ..])
}

// A word that names no setting.
fn other_word(w: &[u8]) -> Word
    ensures { result ≡ other_word w.now }
{
    if w == b"sd".as_slice() {
        Word::Sd
    } else if w == b"variance".as_slice() {
        Word::Variance
    } else if w == b"unknown".as_slice() {
        Word::Unknown
    } else if w == b"-".as_slice() {
        Word::Gap
    } else if w == b"+".as_slice() {
        Word::Planned
    } else if starts_check(w) {
        Word::NoCheck
    } else {
        Word::Other
    }
}

// A word that is no number.
fn plain_word(w: &[u8]) -> Word
    ensures { result ≡ plain_word w.now }
{
    match setting_name(w) {
        Some(name) => Word::Setting(name),
        None => other_word(w),
    }
}

#[tactic(auto, using(crate::proofs::Laws::stretch_all))]
fn token(w: &[u8]) -> Word
    ensures { result ≡ token_of w.now }
{
    match decimal::read(w, 0, w.len()) {
        Ok(n) => {
            if n.minus {
                Word::Negative(n.size)
            } else {
                Word::Number(n.size)
            }
        }
        Err(NotRead::Empty) => Word::End,
        Err(NotRead::TooLong) => Word::NoCheck,
        Err(NotRead::NotANumber) => plain_word(w),
    }
}

// Word k of the line, from 0; past the last word, the empty stretch at the line's end.
pub fn word_no(line: &[u8], k: u8) -> Span
    ensures { (result ≡ word_no line.now k) × (result.from ≤ result.to) × (result.to ≤ length line.now) }
{
    let mut at: usize = 0;
    for _ in 0..k {
        at = decimal::word(line, at).to;
    }
    decimal::word(line, at)
}

fn token_no(line: &[u8], k: u8) -> Word
    ensures { result ≡ token_no line.now k }
{
    let w = word_no(line, k);
    token(&line[w.from..w.to])
}

pub fn tokens(line: &[u8]) -> Tokens
    ensures { result ≡ tokens_of line.now }
{
    Tokens {
        first: token_no(line, 0),
        second: token_no(line, 1),
        third: token_no(line, 2),
        fourth: token_no(line, 3),
        fifth: token_no(line, 4),
    }
}
