// One page as a cursor meets it, and what stands on it.
ghost use Rattle.std.specs.Prelude.{◌≡◌, true, false, ◌*◌, ◌+◌, ◌<◌};
ghost use Rattle.page.specs.Layout.{count_of, page_of};
ghost use Rattle.page.specs.PageRules.{block_of, SoundBlock};
ghost use Rattle.path.specs.Path.{met};
ghost use Rattle.view.specs.Geometry.{SoundSizes};
ghost use Rattle.view.specs.View.{value_item, view_of};
ghost use Rattle.cursor.specs.Sight.{sight_of, SoundPage};
ghost use Rattle.cursor.specs.Cursor.{entry_of};

use super::Entry;
use field::Refusal;
use page::breach::Breach;
use page::layout::{child, count, is_leaf};
use page::rules::{check, header_bad};
use page::search::leaf_at;
use view::image::{block, from_page, inside};

// A branch or a leaf with so many elements.
#[derive(Clone, Copy)]
pub enum Sight {
    Branch(usize),
    Leaf(usize),
}

// Page `q`, as the root or not, after rules 2 and 4 to 7; or its first breach.
pub fn meet(image: &[u8], p: usize, n: usize, q: usize, top: bool) -> Result<Sight, Breach>
    requires { SoundSizes image.now p n }
    ensures { result ≡ sight_of (met n (view_of image.now p n) q top) }
{
    if !inside(n, q) {
        return Err(Breach::from(Refusal::PageNumber));
    }
    if header_bad(from_page(image, p, n, q), n, q) {
        return Err(Breach::from(Refusal::Header));
    }
    let b = block(image, p, n, q);
    if is_leaf(b) {
        check(b, true, top)?;
        return Ok(Sight::Leaf(count(b)));
    }
    check(b, false, false)?;
    Ok(Sight::Branch(count(b)))
}

// How many elements page `q` has.
pub fn count_at(image: &[u8], p: usize, n: usize, q: usize) -> usize
    requires { SoundPage image.now p n q }
    ensures { result ≡ count_of (block_of image.now p q) }
{
    count(block(image, p, n, q))
}

// The page of child `i` of the branch on page `q`.
pub fn child_at(image: &[u8], p: usize, n: usize, q: usize, i: usize) -> usize
    requires { SoundPage image.now p n q × SoundBlock false false (block_of image.now p q) × (i < count_of (block_of image.now p q)) }
    ensures { result ≡ page_of (block_of image.now p q) i }
{
    child(block(image, p, n, q), i)
}

// Entry `i` of the leaf on page `q`.
pub fn entry_at(image: &[u8], p: usize, n: usize, q: usize, i: usize) -> Entry
    requires { SoundPage image.now p n q × SoundBlock true true (block_of image.now p q) × (i < count_of (block_of image.now p q)) }
    ensures { result ≡ entry_of (value_item (q * p) (block_of image.now p q) i) }
{
    let start = q * p;
    let e = leaf_at(block(image, p, n, q), i);
    Entry {
        kind: e.kind,
        key: start + e.key,
        value: start + e.value,
        end: start + e.end,
    }
}
