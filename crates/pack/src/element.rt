// One entry: where its element stands, its parts in a source block, and its bytes in a new one.
ghost use Rattle.std.specs.Prelude.{◌≡◌, ◌++◌, ◌+◌, ◌-◌, ◌*◌, ◌^◌, ◌<◌, ◌≤◌, length};
ghost use Rattle.field.specs.Field.{bytes_of};
ghost use Rattle.field.specs.Run.{put_at};
ghost use Rattle.page.specs.Layout.{element_size, element_at, tag_of, value_size, value_end, value_of};
ghost use Rattle.pack.specs.Pack.{element};
ghost use Rattle.pack.specs.Plan.{entry_with};

use field::number::put_u64;
use field::run::copy;
use page::layout::{
    BRANCH_SIZE, HEADER_SIZE, LEAF_SIZE, child, key_at, key_size, kind, value_size,
};

// How long an element is.
pub fn element_size(leaf: bool) -> usize
    ensures { result ≡ element_size leaf }
{
    if leaf { LEAF_SIZE } else { BRANCH_SIZE }
}

// Where element `i` starts.
pub fn element_at(leaf: bool, i: usize) -> usize
    requires { element_at leaf i < 2 ^ 64 }
    ensures { result ≡ element_at leaf i }
{
    if leaf {
        return HEADER_SIZE + LEAF_SIZE * i;
    }
    HEADER_SIZE + BRANCH_SIZE * i
}

// The kind of a leaf's entry `i`, or the page of a branch's.
pub fn tag(block: &[u8], leaf: bool, i: usize) -> u64
    requires { element_at leaf i + element_size leaf ≤ length block.now }
    ensures { result ≡ tag_of leaf block.now i }
{
    if leaf {
        return u64::from(kind(block, i));
    }
    child(block, i) as u64
}

// How long the value of entry `i` is; a branch's has none.
fn value_length(block: &[u8], leaf: bool, i: usize) -> usize
    requires { element_at leaf i + element_size leaf ≤ length block.now }
    ensures { result ≡ value_size leaf block.now i }
{
    if leaf { value_size(block, i) } else { 0 }
}

// The value of entry `i`, as a part of the block.
pub fn value(block: &[u8], leaf: bool, i: usize) -> &[u8]
    requires { (element_at leaf i + element_size leaf ≤ length block.now) × (value_end leaf block.now i ≤ length block.now) }
    ensures { result.now ≡ value_of leaf block.now i }
{
    let start = key_at(block, leaf, i) + key_size(block, leaf, i);
    let end = start + value_length(block, leaf, i);
    &block[start..end]
}

// Where the value of entry `i` ends.
pub fn body_end(block: &[u8], leaf: bool, i: usize) -> usize
    requires { (element_at leaf i + element_size leaf ≤ length block.now) × (value_end leaf block.now i ≤ length block.now) }
    ensures { result ≡ value_end leaf block.now i }
{
    key_at(block, leaf, i) + key_size(block, leaf, i) + value_length(block, leaf, i)
}

// Puts three words at `at`.
fn put_three(out: &mut [u8], at: usize, a: u64, b: u64, c: u64)
    requires { at + 24 ≤ length out.old }
    ensures { out.new ≡ put_at out.old at (bytes_of 8 a ++ bytes_of 8 b ++ bytes_of 8 c) }
{
    let a1 = at + 8;
    let a2 = a1 + 8;
    put_u64(out, at, a);
    put_u64(out, a1, b);
    put_u64(out, a2, c);
}

// Puts four words at `at`.
pub fn put_four(out: &mut [u8], at: usize, a: u64, b: u64, c: u64, d: u64)
    requires { at + 32 ≤ length out.old }
    ensures { out.new ≡ put_at out.old at (bytes_of 8 a ++ bytes_of 8 b ++ bytes_of 8 c ++ bytes_of 8 d) }
{
    let a3 = at + 24;
    put_three(out, at, a, b, c);
    put_u64(out, a3, d);
}

// Puts the element of an entry at `at`, whose key and value are to stand from `d` on, and says where they are to end.
pub fn put_element(
    leaf: bool,
    tag: u64,
    key: &[u8],
    value: &[u8],
    out: &mut [u8],
    at: usize,
    d: usize,
) -> usize
    requires { (at + element_size leaf ≤ d) × (d + (length key.now + length value.now) ≤ length out.old) }
    ensures { (result ≡ d + (length key.now + length value.now))
        × (out.new ≡ put_at out.old at (element leaf (d - at) (entry_with tag key.now value.now))) }
{
    let pos = d - at;
    let end = d + (key.len() + value.len());
    if leaf {
        put_four(
            out,
            at,
            tag,
            pos as u64,
            key.len() as u64,
            value.len() as u64,
        );
        return end;
    }
    put_three(out, at, tag, key.len() as u64, pos as u64);
    end
}

// Puts a key and its value at `at`, and says where they end.
pub fn put_body(key: &[u8], value: &[u8], out: &mut [u8], at: usize) -> usize
    requires { at + (length key.now + length value.now) ≤ length out.old }
    ensures { (result ≡ at + (length key.now + length value.now))
        × (out.new ≡ put_at out.old at (key.now ++ value.now)) }
{
    let middle = at + key.len();
    copy(out, at, key);
    copy(out, middle, value);
    middle + value.len()
}
