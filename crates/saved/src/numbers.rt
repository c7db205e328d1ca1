// Whole numbers as bytes, most significant first, at a place of a slice. In these forms reading and writing are compiled to one load or store and a turn
// of the bytes in a register: of `from_be_bytes` over bytes that are named one by one no compiler makes one load, and of `to_be_bytes` Arm's makes vector
// shuffles. Two widths and no generic: from_be_bytes and swap_bytes are each type's own.
ghost use Rattle.std.specs.Prelude.{◌≡◌, ◌+◌, ◌≤◌, length};
ghost use Rattle.definition.specs.Saved.{bytes_of};
ghost use Rattle.saved.specs.Places.{bytes_at, put_at};

// The number in the four bytes from a place on.
pub fn four(s: &[u8], at: usize) -> u32
    requires { at + 4 ≤ length s.now }
    ensures { result ≡ bytes_at 4 at s.now }
{
    u32::from_be_bytes(s[at..at + 4].try_into().unwrap())
}

// In the eight bytes.
pub fn eight(s: &[u8], at: usize) -> u64
    requires { at + 8 ≤ length s.now }
    ensures { result ≡ bytes_at 8 at s.now }
{
    u64::from_be_bytes(s[at..at + 8].try_into().unwrap())
}

// v in four bytes, from a place on.
pub fn put_four(out: &mut [u8], at: usize, v: u32)
    requires { at + 4 ≤ length out.old }
    ensures { out.new ≡ put_at at (bytes_of 4 v) out.old }
{
    out[at..at + 4].copy_from_slice(&v.swap_bytes().to_le_bytes());
}

// In eight.
pub fn put_eight(out: &mut [u8], at: usize, v: u64)
    requires { at + 8 ≤ length out.old }
    ensures { out.new ≡ put_at at (bytes_of 8 v) out.old }
{
    out[at..at + 8].copy_from_slice(&v.swap_bytes().to_le_bytes());
}
