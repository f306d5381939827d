// The sizes that 01 allows.
ghost use Rattle.std.specs.Prelude.{◌≡◌};
ghost use Rattle.field.specs.Sizes.{size_allowed, count_allowed};

// Whether a page size is allowed: 1,024 to 65,536, and a multiple of 8.
pub fn size_allowed(p: usize) -> bool
    ensures { result ≡ size_allowed p }
{
    1024 <= p && p <= 65536 && p % 8 == 0
}

// Whether a page count is allowed: 2 to 32,768.
pub fn count_allowed(n: usize) -> bool
    ensures { result ≡ count_allowed n }
{
    2 <= n && n <= 32768
}
