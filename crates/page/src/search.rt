// The search of a block: `index`, `index_page` and the entry at an index.
ghost use Rattle.std.specs.Prelude.{◌≡◌, true, ◌<◌};
ghost use Rattle.page.specs.Layout.{count_of};
ghost use Rattle.page.specs.PageRules.{SoundBlock};
ghost use Rattle.page.specs.Search.{place_of, index_of, index_page_of, held_of, leaf_of};

use super::breach::Breach;
use super::layout::{child, count, is_leaf, key_at, key_order, key_size, kind, value_size};
use super::rules::lent_check;
use field::Refusal;
use std::cmp::Ordering;

// Where a key is, or the place before the one where it would be put: `at` is told either way.
#[derive(Clone, Copy)]
pub struct Place {
    pub at: usize,
    pub found: bool,
}

// A leaf's entry: its kind, its key from `key` to `value`, and its value from `value` to `end`.
#[derive(Clone, Copy)]
pub struct Leaf {
    pub kind: u8,
    pub key: usize,
    pub value: usize,
    pub end: usize,
}

// Where the key is among the `n` of a sound block, by halving.
pub fn find(b: &[u8], leaf: bool, n: usize, key: &[u8]) -> Place
    requires { (n ≡ count_of b.now) × SoundBlock leaf true b.now }
    ensures { result ≡ place_of leaf b.now key.now }
{
    let mut lo = 0;
    let mut hi = n;
    // Halving: no count.
    while lo < hi {
        let mid = (lo + hi) / 2;
        match key_order(b, leaf, mid, key) {
            Ordering::Less => {
                lo = mid + 1;
            }
            Ordering::Equal => {
                return Place {
                    at: mid,
                    found: true,
                };
            }
            Ordering::Greater => {
                hi = mid;
            }
        }
    }
    Place {
        at: lo.saturating_sub(1),
        found: false,
    }
}

// Where the key is in a lent block.
pub fn index(b: &[u8], p: usize, key: &[u8]) -> Result<Place, Breach>
    ensures { result ≡ index_of p b.now key.now }
{
    lent_check(b, p)?;
    Ok(find(b, is_leaf(b), count(b), key))
}

// The page at an index of a lent branch.
pub fn index_page(b: &[u8], p: usize, i: usize) -> Result<usize, Breach>
    ensures { result ≡ index_page_of p b.now i }
{
    lent_check(b, p)?;
    if count(b) <= i {
        return Ok(0);
    }
    if is_leaf(b) {
        return Err(Breach::from(Refusal::Argument));
    }
    Ok(child(b, i))
}

// The entry at an index of a sound leaf.
pub fn leaf_at(b: &[u8], i: usize) -> Leaf
    requires { (i < count_of b.now) × SoundBlock true true b.now }
    ensures { result ≡ leaf_of b.now i }
{
    let start = key_at(b, true, i);
    let middle = start + key_size(b, true, i);
    Leaf {
        kind: kind(b, i),
        key: start,
        value: middle,
        end: middle + value_size(b, i),
    }
}

// The entry at an index of a lent leaf, if it has so many: the crate's `val`.
pub fn entry(b: &[u8], p: usize, i: usize) -> Result<Option<Leaf>, Breach>
    ensures { result ≡ held_of p b.now i }
{
    lent_check(b, p)?;
    if !is_leaf(b) {
        return Err(Breach::from(Refusal::Argument));
    }
    if count(b) <= i {
        return Ok(None);
    }
    Ok(Some(leaf_at(b, i)))
}
