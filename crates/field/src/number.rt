// Numbers in a slice of bytes: u32 and u64 with the lowest byte first, and u64 with the highest byte first.
ghost use Rattle.std.specs.Prelude.{◌≡◌, ◌+◌, ◌<◌, ◌≤◌, length, get_or};
ghost use Rattle.field.specs.Field.{field, big_field, bytes_of, flag_of};
ghost use Rattle.field.specs.Run.{put_at};

// Kept, a function for each width: std has no trait over `from_le_bytes`, so that one of both would be no plainer.
// The u32 of the four bytes from `at` on.
pub fn u32_at(s: &[u8], at: usize) -> u32
    requires { at + 4 ≤ length s.now }
    ensures { result ≡ field 4 s.now at }
{
    let end = at + 4;
    let w = &s[at..end];
    u32::from_le_bytes([w[0], w[1], w[2], w[3]])
}

// The u64 of the eight bytes from `at` on.
pub fn u64_at(s: &[u8], at: usize) -> u64
    requires { at + 8 ≤ length s.now }
    ensures { result ≡ field 8 s.now at }
{
    let end = at + 8;
    let w = &s[at..end];
    u64::from_le_bytes([w[0], w[1], w[2], w[3], w[4], w[5], w[6], w[7]])
}

// The big-endian u64 of the eight bytes from `at` on.
pub fn big_u64_at(s: &[u8], at: usize) -> u64
    requires { at + 8 ≤ length s.now }
    ensures { result ≡ big_field 8 s.now at }
{
    let end = at + 8;
    let w = &s[at..end];
    u64::from_be_bytes([w[0], w[1], w[2], w[3], w[4], w[5], w[6], w[7]])
}

// Puts the four bytes of `v` at `at`.
pub fn put_u32(out: &mut [u8], at: usize, v: u32)
    requires { at + 4 ≤ length out.old }
    ensures { out.new ≡ put_at out.old at (bytes_of 4 v) }
{
    out[at..at + 4].copy_from_slice(&v.to_le_bytes());
}

// Puts the eight bytes of `v` at `at`.
pub fn put_u64(out: &mut [u8], at: usize, v: u64)
    requires { at + 8 ≤ length out.old }
    ensures { out.new ≡ put_at out.old at (bytes_of 8 v) }
{
    out[at..at + 8].copy_from_slice(&v.to_le_bytes());
}
