// The freelist page, after the tree.
ghost use Rattle.std.specs.Prelude.{◌≡◌, false, List, ℕ, ◌+◌, ◌-◌, ◌*◌, ◌≤◌, ◌<◌, length};
ghost use Rattle.page.specs.Layout.{count_of};
ghost use Rattle.page.specs.PageRules.{no_common, first_bad, breach};
ghost use Rattle.view.specs.Geometry.{SoundSizes};
ghost use Rattle.judge.specs.Judge.{free_header_bad, id_at, id_outside, id_not_above, id_marked, ids_of, freelist_of};
ghost use Rattle.judge.specs.Walk.{Marks};

use super::Counts;
use super::fault::{on_page, page_fault};
use super::pages::take_pages;
use field::Refusal;
use field::marks::{count_marks, is_marked};
use field::number::u64_at;
use page::Breach;
use page::layout::{count, id, overflow, page_type};
use view::Fault;
use view::image::{block, from_page, inside};

const TYPE_FREELIST: u8 = 4;

// Whether the header of page `f`, in the bytes that start with it, is not that of a freelist block within `n` pages.
fn free_header_bad(s: &[u8], n: usize, f: usize) -> bool
    requires { (32 ≤ length s.now) × (f < n) }
    ensures { result ≡ free_header_bad n f s.now }
{
    if id(s) != f {
        return true;
    }
    if page_type(s) != TYPE_FREELIST {
        return true;
    }
    n - f <= overflow(s)
}

// Id `i` of a freelist block.
fn id_at(b: &[u8], i: usize) -> usize
    requires { 32 + 8 * i + 8 ≤ length b.now }
    ensures { result ≡ id_at b.now i }
{
    u64_at(b, 32 + 8 * i) as usize
}

// The refusal of id `i`.
fn id_breach(refusal: Refusal, i: usize) -> Breach
    ensures { result ≡ breach refusal i 0 }
{
    Breach {
        refusal,
        element: i,
        common: 0,
    }
}

// The first id that is not one of 2 to n - 1.
fn first_outside(b: &[u8], n: usize, c: usize) -> Result<(), Breach>
    requires { 32 + 8 * c ≤ length b.now }
    ensures { result ≡ first_bad (id_outside n b.now) no_common Refusal.Element c 0 }
{
    for i in 0..c {
        if !inside(n, id_at(b, i)) {
            return Err(id_breach(Refusal::Element, i));
        }
    }
    Ok(())
}

// The first id that is not above the one before it.
fn first_not_above(b: &[u8], c: usize) -> Result<(), Breach>
    requires { 32 + 8 * c ≤ length b.now }
    ensures { result ≡ first_bad (id_not_above b.now) no_common Refusal.KeyOrder (c - 1) 1 }
{
    for i in 1..c {
        if id_at(b, i) <= id_at(b, i - 1) {
            return Err(id_breach(Refusal::KeyOrder, i));
        }
    }
    Ok(())
}

// The first id that is marked.
fn first_marked(b: &[u8], c: usize, marks: &[u64; 512]) -> Result<(), Breach>
    requires { (32 + 8 * c ≤ length b.now) × ((i : ℕ) → i < c → id_at b.now i < 32768) }
    ensures { (vs : List ℕ) → Marks marks.now vs → result ≡ first_bad (id_marked vs b.now) no_common Refusal.UsedTwice c 0 }
{
    for i in 0..c {
        let page = id_at(b, i);
        if is_marked(marks[page / 64], page as u64) {
            return Err(id_breach(Refusal::UsedTwice, i));
        }
    }
    Ok(())
}

// The rules of a freelist block's table and ids.
fn check_ids(b: &[u8], n: usize, marks: &[u64; 512]) -> Result<(), Breach>
    requires { (32 ≤ length b.now) × (n ≤ 32768) }
    ensures { (vs : List ℕ) → Marks marks.now vs → result ≡ ids_of n vs b.now }
{
    let c = count(b);
    if (b.len() - 32) / 8 < c {
        return Err(Breach::from(Refusal::Table));
    }
    first_outside(b, n, c)?;
    first_not_above(b, c)?;
    first_marked(b, c, marks)
}

// The judge's answer after a tree of so many leaf entries, the pages of whose blocks are marked.
pub fn after_tree(
    image: &[u8],
    p: usize,
    n: usize,
    f: usize,
    entries: usize,
    marks: [u64; 512],
) -> Result<Counts, Fault>
    requires { SoundSizes image.now p n }
    ensures { (vs : List ℕ) → Marks marks vs → result ≡ freelist_of image.now p n f entries vs }
{
    if !inside(n, f) {
        return Err(page_fault(Refusal::PageNumber, f));
    }
    let s = from_page(image, p, n, f);
    if free_header_bad(s, n, f) {
        return Err(page_fault(Refusal::Header, f));
    }
    let end = f + overflow(s) + 1;
    let mut marked = marks;
    take_pages(&mut marked, f, end)?;
    on_page(f, check_ids(block(image, p, n, f), n, &marked))?;
    Ok(Counts {
        entries,
        pages: count_marks(marked) as usize,
    })
}
