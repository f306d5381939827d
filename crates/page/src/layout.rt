// The numbers of a block's header and elements, and its keys.
ghost use Rattle.std.specs.Prelude.{◌≡◌, true, false, ◌+◌, ◌≤◌, length};
ghost use Rattle.field.specs.Order.{order_of};
ghost use Rattle.page.specs.Layout.{id_of, type_of, count_of, overflow_of, is_leaf, element_size, element_at, page_of, kind_of, key_size, value_size, key_at, value_at, key_of};

use field::number::u64_at;
use field::order::order_of;
use std::cmp::Ordering;

pub const HEADER_SIZE: usize = 32;

pub const BRANCH_SIZE: usize = 24;

pub const LEAF_SIZE: usize = 32;

pub const TYPE_BRANCH: u8 = 1;

pub const TYPE_LEAF: u8 = 2;

// The page's number, as its header has it.
pub fn id(b: &[u8]) -> usize
    requires { 32 ≤ length b.now }
    ensures { result ≡ id_of b.now }
{
    u64_at(b, 0) as usize
}

// The page's type.
pub fn page_type(b: &[u8]) -> u8
    requires { 32 ≤ length b.now }
    ensures { result ≡ type_of b.now }
{
    b[8]
}

// Whether the page is a leaf.
pub fn is_leaf(b: &[u8]) -> bool
    requires { 32 ≤ length b.now }
    ensures { result ≡ is_leaf b.now }
{
    page_type(b) == TYPE_LEAF
}

// How many elements the block has.
pub fn count(b: &[u8]) -> usize
    requires { 32 ≤ length b.now }
    ensures { result ≡ count_of b.now }
{
    u64_at(b, 16) as usize
}

// How many pages the block has after its first.
pub fn overflow(b: &[u8]) -> usize
    requires { 32 ≤ length b.now }
    ensures { result ≡ overflow_of b.now }
{
    u64_at(b, 24) as usize
}

// Where the key of element `i` starts.
pub fn key_at(b: &[u8], leaf: bool, i: usize) -> usize
    requires { (element_at leaf i + element_size leaf ≤ length b.now) × (key_at leaf b.now i ≤ length b.now) }
    ensures { result ≡ key_at leaf b.now i }
{
    if leaf {
        let at = HEADER_SIZE + LEAF_SIZE * i;
        return at + u64_at(b, at + 8) as usize;
    }
    let at = HEADER_SIZE + BRANCH_SIZE * i;
    at + u64_at(b, at + 16) as usize
}

// How long the key of element `i` is.
pub fn key_size(b: &[u8], leaf: bool, i: usize) -> usize
    requires { element_at leaf i + element_size leaf ≤ length b.now }
    ensures { result ≡ key_size leaf b.now i }
{
    if leaf {
        let at = HEADER_SIZE + LEAF_SIZE * i;
        return u64_at(b, at + 16) as usize;
    }
    let at = HEADER_SIZE + BRANCH_SIZE * i;
    u64_at(b, at + 8) as usize
}

// How long the value of a leaf's element `i` is.
pub fn value_size(b: &[u8], i: usize) -> usize
    requires { element_at true i + 32 ≤ length b.now }
    ensures { result ≡ value_size true b.now i }
{
    let at = HEADER_SIZE + LEAF_SIZE * i;
    u64_at(b, at + 24) as usize
}

// The kind of a leaf's element `i`.
pub fn kind(b: &[u8], i: usize) -> u8
    requires { element_at true i + 32 ≤ length b.now }
    ensures { result ≡ kind_of b.now i }
{
    let at = HEADER_SIZE + LEAF_SIZE * i;
    b[at]
}

// The page of a branch's element `i`.
pub fn child(b: &[u8], i: usize) -> usize
    requires { element_at false i + 24 ≤ length b.now }
    ensures { result ≡ page_of b.now i }
{
    let at = HEADER_SIZE + BRANCH_SIZE * i;
    u64_at(b, at) as usize
}

// The key of element `i`, as a part of the block.
pub fn key(b: &[u8], leaf: bool, i: usize) -> &[u8]
    requires { (element_at leaf i + element_size leaf ≤ length b.now) × (value_at leaf b.now i ≤ length b.now) }
    ensures { result.now ≡ key_of leaf b.now i }
{
    let start = key_at(b, leaf, i);
    let end = start + key_size(b, leaf, i);
    &b[start..end]
}

// The order of the key of element `i` and another key.
pub fn key_order(b: &[u8], leaf: bool, i: usize, other: &[u8]) -> Ordering
    requires { (element_at leaf i + element_size leaf ≤ length b.now) × (value_at leaf b.now i ≤ length b.now) }
    ensures { result ≡ order_of (key_of leaf b.now i) other.now }
{
    order_of(key(b, leaf, i), other)
}
