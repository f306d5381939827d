// FNV-1a at 64 bits, over a slice of bytes and over numbers as their bytes, the highest first.
ghost use Rattle.std.specs.Prelude.{◌≡◌};
ghost use Rattle.field.specs.Field.{big_bytes_of};
ghost use Rattle.meta.specs.Fnv.{hash_from, fnv1a_of};

// The hash of no bytes.
pub const BASIS: u64 = 14695981039346656037;

// What each step multiplies by.
const PRIME: u64 = 1099511628211;

// The hash `h`, carried on over the bytes of `s`.
fn hash_bytes(h: u64, s: &[u8]) -> u64
    ensures { result ≡ hash_from h s.now }
{
    let mut hash = h;
    for &byte in s {
        hash = (hash ^ u64::from(byte)).wrapping_mul(PRIME);
    }
    hash
}

// The hash of the bytes of `s`.
pub fn fnv1a(s: &[u8]) -> u64
    ensures { result ≡ fnv1a_of s.now }
{
    hash_bytes(BASIS, s)
}

// The hash `h`, carried on over the four bytes of `v`, the highest first.
pub fn hash_u32(h: u64, v: u32) -> u64
    ensures { result ≡ hash_from h (big_bytes_of 4 v) }
{
    hash_bytes(h, &v.to_be_bytes())
}

// The hash `h`, carried on over the eight bytes of `v`, the highest first.
pub fn hash_u64(h: u64, v: u64) -> u64
    ensures { result ≡ hash_from h (big_bytes_of 8 v) }
{
    let bytes = v.to_be_bytes();
    hash_bytes(h, &bytes)
}
