// The judge: the walk of a tree, then the freelist page.

#![tactic(auto)]

mod fault;
mod freelist;
mod pages;
mod range;

ghost use Rattle.std.specs.Prelude.{◌≡◌, true, false, cond, List, [], ◌++◌, ℕ, ◌+◌, ◌*◌, ◌≤◌, ◌<◌, ltb, length};
ghost use Rattle.std.proofs.Math.Option.{none, some};
ghost use Rattle.field.specs.Marks.{count as count_marked};
ghost use Rattle.page.specs.Layout.{key_of, count_of};
ghost use Rattle.page.specs.PageRules.{SoundBlock};
ghost use Rattle.walk.specs.Tree.{walk as walk_of};
ghost use Rattle.view.specs.Geometry.{SoundSizes};
ghost use Rattle.view.specs.View.{view_of, pages_of};
ghost use Rattle.judge.specs.Judge.{judge_of};
ghost use Rattle.judge.specs.Walk.{upper_of, met_of, NoBreach, Branching, children_of, Marks, Says};

use fault::page_fault;
use field::Refusal;
use field::marks::no_marks;
use freelist::after_tree;
use page::layout::{child, key, overflow};
use page::rules::header_bad;
use pages::take_pages;
use range::{Page, judge_page};
use view::image::{block, from_page, geometry_bad, inside};
use view::{Fault, LEVELS};

// What the judge counts: the leaf entries and the pages reached.
#[derive(Clone, Copy)]
pub struct Counts {
    pub entries: usize,
    pub pages: usize,
}

// The upper end of child `i`'s range: the next separator, or the branch's own for the last of `c` children.
fn upper<'a>(b: &'a [u8], i: usize, c: usize, high: Option<&'a [u8]>) -> Option<&'a [u8]>
    requires { (c ≡ count_of b.now) × SoundBlock false false b.now × (i < c) }
    ensures { upper_of result ≡ cond (ltb (i + 1) c) (some (key_of false b.now (i + 1))) (upper_of high.entry) }
{
    if i + 1 < c {
        return Some(key(b, false, i + 1));
    }
    high
}

// The verdict on page `q` when the walk meets it with `left` levels to spend: rules 1, 2, 4, 3 and then 5 to 8. The pages of its block are marked from rule 3 on.
fn meet(
    image: &[u8],
    p: usize,
    n: usize,
    left: usize,
    top: bool,
    q: usize,
    low: &[u8],
    high: Option<&[u8]>,
    marks: &mut [u64; 512],
) -> Result<Page, Fault>
    requires { SoundSizes image.now p n }
    ensures says { (vs : List ℕ) → Marks marks.old vs
        → (result ≡ met_of n (pages_of image.now p n) (view_of image.now p n) left top q low.now (upper_of high.entry) vs)
        × (NoBreach result → Marks marks.new (pages_of image.now p n q ++ vs)) }
    ensures more { NoBreach result → count_marked marks.old < count_marked marks.new }
{
    if left == 0 {
        return Err(page_fault(Refusal::TooDeep, q));
    }
    if !inside(n, q) {
        return Err(page_fault(Refusal::PageNumber, q));
    }
    let s = from_page(image, p, n, q);
    if header_bad(s, n, q) {
        return Err(page_fault(Refusal::Header, q));
    }
    let end = q + overflow(s) + 1;
    take_pages(marks, q, end)?;
    judge_page(image, p, n, q, top, low, high)
}

// The walk of page `q` with `left` levels to spend, as the root or not, with its range and the pages marked before: the number of leaf entries, or the first breach.
#[cycle(walk)]
fn walk(
    image: &[u8],
    p: usize,
    n: usize,
    left: usize,
    top: bool,
    q: usize,
    low: &[u8],
    high: Option<&[u8]>,
    marks: &mut [u64; 512],
) -> Result<usize, Fault>
    requires { SoundSizes image.now p n }
    ensures says { (vs : List ℕ) → Marks marks.old vs
        → Says result marks.new (walk_of n (pages_of image.now p n) (view_of image.now p n) left top q low.now (upper_of high.entry) vs) }
    ensures counted { (m : ℕ) → result ≡ Ok m → m + 2147483648 * count_marked marks.old ≤ 2147483648 * count_marked marks.new }
{
    match meet(image, p, n, left, top, q, low, high, marks)? {
        Page::Leaf(entries) => Ok(entries),
        Page::Branch(c) => walk_all(image, p, n, left - 1, q, c, high, marks),
    }
}

// The walk of the `c` children of branch `q`, with `left` levels to spend, its upper end and the pages marked before: the number of leaf entries, or the first breach.
#[cycle(walk)]
fn walk_all(
    image: &[u8],
    p: usize,
    n: usize,
    left: usize,
    q: usize,
    c: usize,
    high: Option<&[u8]>,
    marks: &mut [u64; 512],
) -> Result<usize, Fault>
    requires { SoundSizes image.now p n × (q < n) × Branching image.now p n q c }
    ensures says { (vs : List ℕ) → Marks marks.old vs
        → Says result marks.new (children_of image.now p n left q c (upper_of high.entry) vs) }
    ensures counted { (m : ℕ) → result ≡ Ok m → m + 2147483648 * count_marked marks.old ≤ 2147483648 * count_marked marks.new }
{
    let b = block(image, p, n, q);
    let mut entries = 0;
    for i in 0..c {
        let low = key(b, false, i);
        let end = upper(b, i, c, high);
        entries += walk(image, p, n, left, false, child(b, i), low, end, marks)?;
    }
    Ok(entries)
}

// The judge of an image: the counts of leaf entries and pages reached, or the first breach in the order of the rules.
pub fn judge(image: &[u8], p: usize, n: usize, root: usize, f: usize) -> Result<Counts, Fault>
    ensures { result ≡ judge_of image.now p n root f }
{
    if geometry_bad(image, p, n) {
        return Err(page_fault(Refusal::Geometry, 0));
    }
    let mut marks = no_marks();
    let entries = walk(image, p, n, LEVELS, true, root, &[], None, &mut marks)?;
    after_tree(image, p, n, f, entries, marks)
}
