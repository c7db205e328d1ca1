// A group's words: sizes, doubles by their bit patterns, and whether what a leaf answered has the bits that are wanted.
ghost use Rattle.std.specs.Prelude.{◌+◌, ◌*◌, ◌<◌, ◌≤◌, length};

// The bytes of a group.
pub const GROUP: usize = 8616;

// A size, at least 1 and at most 8.
pub fn size(group: &[u8; GROUP], at: usize) -> usize
    requires { at < 8616 }
    ensures { (0 < result) × (result ≤ 8) }
{
    group[at].clamp(1, 8) as usize
}

pub fn word(group: &[u8; GROUP], at: usize) -> u64
    requires { at + 8 ≤ 8616 }
{
    u64::from_le_bytes(*group[at..].first_chunk().unwrap())
}

pub fn doubles<const N: usize>(group: &[u8; GROUP], at: usize) -> [f64; N]
    requires { at + 8 * N ≤ 8616 }
{
    let mut out = [0.0; N];
    for (i, x) in out.iter_mut().enumerate() {
        *x = bits::double(word(group, at + 8 * i));
    }
    out
}

// Whether x has another pattern than w, and not both are a NaN.
pub fn apart(x: f64, w: u64) -> bool {
    bits::pattern(x) != w
}

// Whether a number has other bits than the group has from `at` on.
pub fn apart_from(out: &[f64], group: &[u8; GROUP], at: usize) -> bool
    requires { at + 8 * length out.now ≤ 8616 }
{
    let mut bad = false;
    for (i, x) in out.iter().enumerate() {
        bad |= apart(*x, word(group, at + 8 * i));
    }
    bad
}

// How many are apart.
pub fn count(apart: &[bool]) -> u64 {
    apart.iter().filter(|apart| **apart).count() as u64
}

// It wraps, since no proof bounds the counts.
pub fn sum(counts: &[u64]) -> u64 {
    counts.iter().fold(0, |sum, count| sum.wrapping_add(*count))
}
