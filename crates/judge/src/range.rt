// Rule 8, and a page's own verdict in the judge's walk.
ghost use Rattle.std.specs.Prelude.{◌≡◌, true, false, ◌*◌, ◌≤◌, ◌<◌, length, drop};
ghost use Rattle.page.specs.Layout.{count_of};
ghost use Rattle.page.specs.PageRules.{and_then, first_bad, header_bad, check_of, SoundBlock};
ghost use Rattle.walk.specs.Tree.{under};
ghost use Rattle.view.specs.Geometry.{SoundSizes};
ghost use Rattle.view.specs.View.{view_of};
ghost use Rattle.judge.specs.Walk.{upper_of, against_upper, ranged_of, key_out, common_out, judge_page_of};

use super::fault::on_page;
use field::Refusal;
use field::order::{compare, is_below};
use page::Breach;
use page::layout::{count, is_leaf, key};
use page::rules::check;
use view::Fault;
use view::image::block;

// A page of the tree: the number of a branch's children or of a leaf's entries.
#[derive(Clone, Copy)]
pub enum Page {
    Branch(usize),
    Leaf(usize),
}

// Where a key is not below the upper end of its range, the length of the common beginning of the two.
fn against_upper(k: &[u8], high: Option<&[u8]>) -> Option<usize>
    ensures { result ≡ against_upper (upper_of high.entry) k.now }
{
    let parting = compare(k, high?);
    if parting.order.is_lt() {
        return None;
    }
    Some(parting.common)
}

// Where a key is out of its range, below the lower end or not below the upper, the length of the common beginning of it and the end that it crosses.
fn against_range(k: &[u8], low: &[u8], high: Option<&[u8]>) -> Option<usize>
    ensures { result ≡ ranged_of low.now (upper_of high.entry) k.now }
{
    let parting = compare(k, low);
    if parting.order.is_lt() {
        return Some(parting.common);
    }
    against_upper(k, high)
}

// The first key out of range, looked for from the front.
fn first_out(b: &[u8], leaf: bool, n: usize, low: &[u8], high: Option<&[u8]>) -> Result<(), Breach>
    requires { (n ≡ count_of b.now) × SoundBlock leaf true b.now }
    ensures { result ≡ first_bad (key_out leaf b.now low.now (upper_of high.entry))
        (common_out leaf b.now low.now (upper_of high.entry)) Refusal.KeyRange n 0 }
{
    for i in 0..n {
        if let Some(common) = against_range(key(b, leaf, i), low, high) {
            return Err(Breach {
                refusal: Refusal::KeyRange,
                element: i,
                common,
            });
        }
    }
    Ok(())
}

// Whether a key is below the upper end of its range, where there is one.
fn is_under(k: &[u8], high: Option<&[u8]>) -> bool
    ensures { result ≡ under k.now (upper_of high.entry) }
{
    high.is_none_or(|high| is_below(k, high))
}

// Rule 8: the keys rise, so where the first is not below the lower end and the last is below the upper, all are in range.
fn check_range(
    b: &[u8],
    leaf: bool,
    n: usize,
    low: &[u8],
    high: Option<&[u8]>,
) -> Result<(), Breach>
    requires { (n ≡ count_of b.now) × SoundBlock leaf true b.now }
    ensures { result ≡ first_bad (key_out leaf b.now low.now (upper_of high.entry))
        (common_out leaf b.now low.now (upper_of high.entry)) Refusal.KeyRange n 0 }
{
    if n == 0 {
        return Ok(());
    }
    if is_below(key(b, leaf, 0), low) {
        return first_out(b, leaf, n, low, high);
    }
    if is_under(key(b, leaf, n - 1), high) {
        return Ok(());
    }
    first_out(b, leaf, n, low, high)
}

// Rules 5 to 8 of a block.
fn judge_block(
    b: &[u8],
    leaf: bool,
    empty: bool,
    low: &[u8],
    high: Option<&[u8]>,
) -> Result<(), Breach>
    requires { 32 ≤ length b.now }
    ensures { result ≡ and_then (check_of leaf empty b.now)
        (first_bad (key_out leaf b.now low.now (upper_of high.entry))
        (common_out leaf b.now low.now (upper_of high.entry)) Refusal.KeyRange (count_of b.now) 0) }
{
    check(b, leaf, empty)?;
    check_range(b, leaf, count(b), low, high)
}

// The verdict on page `q`, whose header is sound, as the root or not, with its range: rules 5 to 8.
pub fn judge_page(
    image: &[u8],
    p: usize,
    n: usize,
    q: usize,
    top: bool,
    low: &[u8],
    high: Option<&[u8]>,
) -> Result<Page, Fault>
    requires { SoundSizes image.now p n × (q < n) × (header_bad n q (drop (q * p) image.now) ≡ false) }
    ensures { result ≡ judge_page_of (view_of image.now p n q top) q low.now (upper_of high.entry) }
{
    let b = block(image, p, n, q);
    if is_leaf(b) {
        on_page(q, judge_block(b, true, top, low, high))?;
        return Ok(Page::Leaf(count(b)));
    }
    on_page(q, judge_block(b, false, false, low, high))?;
    Ok(Page::Branch(count(b)))
}
