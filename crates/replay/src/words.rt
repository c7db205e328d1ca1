// A case's words, as oracle/FORMAT.md lays them out: numbers, and where each part stands. What a broken file says is cut down to what the buffer has.
ghost use Rattle.std.specs.Prelude.{◌≡◌, ℕ, ◌<◌, ◌≤◌, length};

// The most words of a case, and its head.
pub const WORDS: usize = 8192;

pub const HEAD: usize = 54;

// The most places of a part that a case has, and of an output that is lent.
const LISTED: usize = 4097;

const LENT: usize = 1024;

// Every place of a lent output before a call.
pub const PATTERN: u64 = 0xA5A5_A5A5_A5A5_A5A5;

pub const PATTERN_BYTE: u8 = 0xA5;

// Word k, the most significant byte first.
pub fn word(case: &[u8], k: usize) -> u64 {
    if case.len() / 8 <= k {
        return 0;
    }
    u64::from_be_bytes(*case[8 * k..].first_chunk().unwrap())
}

pub fn size(case: &[u8], k: usize) -> usize {
    word(case, k) as usize
}

// Whether the last listed design repeats.
pub fn marked(case: &[u8]) -> bool {
    word(case, 6) != 0
}

// The places lent of output k.
pub fn lent(case: &[u8], k: usize) -> usize
    requires { k < 13 }
    ensures { result ≤ 1024 }
{
    size(case, 20 + k).min(LENT)
}

// The places of part j that the file has: the thirteen inputs, then what is written of the thirteen outputs.
fn places(case: &[u8], j: usize) -> usize
    requires { j < 26 }
    ensures { result ≤ 4097 }
{
    if j < 13 {
        return size(case, 7 + j).min(LISTED);
    }
    size(case, 28 + j).min(LISTED)
}

// Where part j begins.
fn from(case: &[u8], j: usize) -> usize
    requires { j ≤ 26 }
    ensures { result ≤ 8192 }
{
    let mut at = HEAD;
    for i in 0..j {
        at += places(case, i);
    }
    at.min(WORDS)
}

// The words from `from` up to `to`.
#[derive(Clone, Copy)]
pub struct Span {
    pub from: usize,
    pub to: usize,
    ghost within: { (from ≤ to) × (to ≤ 8192) },
}

// Part j; nothing where it runs past the end.
pub fn stretch(case: &[u8], j: usize) -> Span
    requires { j < 26 }
{
    let a = from(case, j);
    let b = a + places(case, j);
    if b > WORDS {
        return Span { from: a, to: a };
    }
    Span { from: a, to: b }
}

// Every word, as `read` takes it; `none` past the case's end.
fn every<T: Copy, F: Fn(u64) -> T>(case: &[u8], none: T, read: F) -> [T; 8192]
    requires { (w : ℕ) → F.pre read w }
{
    let n = size(case, 0).min(WORDS);
    let mut out = [none; 8192];
    for (i, x) in out[..n].iter_mut().enumerate() {
        *x = read(word(case, i));
    }
    out
}

// Every word as a double.
pub fn doubles(case: &[u8]) -> [f64; 8192]
    ensures { 8192 ≡ length result }
{
    every(case, 0.0, |w| bits::double(w))
}

// The low byte of every word.
pub fn bytes(case: &[u8]) -> [u8; 8192]
    ensures { 8192 ≡ length result }
{
    every(case, 0, |w| (w & 0xff) as u8)
}
