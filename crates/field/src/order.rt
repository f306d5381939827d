// The byte order of keys, in which a prefix is lower, and where two keys part.
ghost use Rattle.std.specs.Prelude.{◌≡◌, cond, ◌⊎◌, ◌≤◌, length};
ghost use Rattle.field.specs.Order.{order_of, common_of, parting_of};
ghost use Rattle.std.specs.Ordering.{is_lt};

use super::number::big_u64_at;
use std::cmp::Ordering;

// How two keys stand to each other: their order, and the length of their common beginning.
#[derive(Clone, Copy)]
pub struct Parting {
    pub order: Ordering,
    pub common: usize,
}

// The length of the common beginning of two keys, byte by byte.
fn common_of(a: &[u8], b: &[u8]) -> usize
    ensures { result ≡ common_of a.now b.now }
{
    let n = a.len().min(b.len());
    for i in 0..n {
        if a[i] != b[i] {
            return i;
        }
    }
    n
}

// Whether the first of two keys is lower, by the byte after their common beginning.
fn lower_at(a: &[u8], b: &[u8], at: usize) -> bool
    requires { at ≡ common_of a.now b.now }
    ensures { result ≡ is_lt (order_of a.now b.now) }
{
    if b.len() <= at {
        return false;
    }
    if a.len() <= at {
        return true;
    }
    a[at] < b[at]
}

// The order of two keys, by the byte after their common beginning.
fn order_at(a: &[u8], b: &[u8], at: usize) -> Ordering
    requires { at ≡ common_of a.now b.now }
    ensures { result ≡ order_of a.now b.now }
{
    if lower_at(a, b, at) {
        return Ordering::Less;
    }
    if at < a.len() {
        return Ordering::Greater;
    }
    Ordering::Equal
}

// How two keys stand to each other, in one pass: where they part, the byte there decides.
pub fn compare(a: &[u8], b: &[u8]) -> Parting
    ensures { result ≡ parting_of a.now b.now }
{
    let common = common_of(a, b);
    let order = order_at(a, b, common);
    Parting { order, common }
}

// Kept: std's `cmp` of slices takes 1.1 to 1.5 of the time, and login's lookup has none to spare (docs/SPEED.md).
// Kept, the loops by words here and in `is_below`: by `step_by` login's lookup and the check of a branch miss bars (docs/DESIGN-PASS.md).
// The order of two keys, by words: after the last whole word of the shorter, one more word that ends with it, of which the first bytes are alike.
pub fn order_of(a: &[u8], b: &[u8]) -> Ordering
    ensures { result ≡ order_of a.now b.now }
{
    let n = a.len().min(b.len());
    if n < 8 {
        return order_at(a, b, common_of(a, b));
    }
    let tail = n - 8;
    let mut i = 0;
    while i < tail {
        let x = big_u64_at(a, i);
        let y = big_u64_at(b, i);
        if x != y {
            if x < y {
                return Ordering::Less;
            }
            return Ordering::Greater;
        }
        i += 8;
    }
    let x = big_u64_at(a, tail);
    let y = big_u64_at(b, tail);
    if x != y {
        if x < y {
            return Ordering::Less;
        }
        return Ordering::Greater;
    }
    order_at(a, b, n)
}

// Whether the first of two keys is lower, by words as `order_of`.
pub fn is_below(a: &[u8], b: &[u8]) -> bool
    ensures { result ≡ is_lt (order_of a.now b.now) }
{
    let n = a.len().min(b.len());
    if n < 8 {
        return lower_at(a, b, common_of(a, b));
    }
    let mut i = 0;
    while 8 <= n - i {
        let x = big_u64_at(a, i);
        let y = big_u64_at(b, i);
        if x != y {
            return x < y;
        }
        i += 8;
    }
    let last = n - 8;
    let x = big_u64_at(a, last);
    let y = big_u64_at(b, last);
    if x != y {
        return x < y;
    }
    a.len() < b.len()
}

// One of two numbers, by a test: a selection and no branch in machine code.
fn pick(test: bool, x: u64, y: u64) -> u64
    ensures { result ≡ cond test x y }
{
    if test { x } else { y }
}

// Whether the first of two keys is lower, the shorter of `n` bytes, 16 to 32: by the first words, or else by three more with no branch among them.
fn is_below_by_four(a: &[u8], b: &[u8], n: usize) -> bool
    requires { (16 ≤ n) × (n ≤ 32) × (n ≤ length a.now) × (n ≤ length b.now) × ((n ≡ length a.now) ⊎ (n ≡ length b.now)) }
    ensures { result ≡ is_lt (order_of a.now b.now) }
{
    let x0 = big_u64_at(a, 0);
    let y0 = big_u64_at(b, 0);
    if x0 != y0 {
        return x0 < y0;
    }
    let fourth = n - 8;
    let third = fourth.min(16);
    let x1 = big_u64_at(a, 8);
    let y1 = big_u64_at(b, 8);
    let x2 = big_u64_at(a, third);
    let y2 = big_u64_at(b, third);
    let x3 = big_u64_at(a, fourth);
    let y3 = big_u64_at(b, fourth);
    let x = pick(x1 != y1, x1, pick(x2 != y2, x2, x3));
    let y = pick(x1 != y1, y1, pick(x2 != y2, y2, y3));
    if x != y {
        return x < y;
    }
    a.len() < b.len()
}

// Whether the first of two keys is lower, for keys of which it cannot be foreseen in which word they part, as neighbours in a leaf.
pub fn is_below_at_once(a: &[u8], b: &[u8]) -> bool
    ensures { result ≡ is_lt (order_of a.now b.now) }
{
    let n = a.len().min(b.len());
    if 16 <= n {
        if n <= 32 {
            return is_below_by_four(a, b, n);
        }
    }
    is_below(a, b)
}
