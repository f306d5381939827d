// The rules that a sound block keeps, each a function: 01's rules 4 to 7.
ghost use Rattle.std.specs.Prelude.{◌≡◌, true, false, not, ◌||◌, ℕ, ◌+◌, ◌-◌, ◌^◌, ◌<◌, ◌≤◌, length};
ghost use Rattle.page.specs.Layout.{count_of, is_branch, is_leaf, element_at, table_end, value_at};
ghost use Rattle.page.specs.PageRules.{no_common, first_bad, header_bad, table_bad, element_bad, key_bad, common_before, kind_bad, is_sound, elements_of, check_of, length_bad, lent_header_bad, lent_check_of};
ghost use Rattle.page.specs.PageRules.{outside as outside_of};

use super::branch_pass::branch_keeps;
use super::breach::Breach;
use super::layout::{
    BRANCH_SIZE, HEADER_SIZE, LEAF_SIZE, TYPE_BRANCH, TYPE_LEAF, count, id, is_leaf, key, overflow,
    page_type,
};
use super::leaf_pass::leaf_keeps;
use field::Refusal;
use field::number::u64_at;
use field::order::compare;
use field::sizes::size_allowed;

// Whether the page is neither a branch nor a leaf.
fn type_bad(s: &[u8]) -> bool
    requires { 32 ≤ length s.now }
    ensures { result ≡ not (is_branch s.now || is_leaf s.now) }
{
    let t = page_type(s);
    if t == TYPE_BRANCH {
        return false;
    }
    t != TYPE_LEAF
}

// Whether the header of page `q` of `n`, in the bytes that start with it, breaks rule 4.
pub fn header_bad(s: &[u8], n: usize, q: usize) -> bool
    requires { (32 ≤ length s.now) × (q < n) }
    ensures { result ≡ header_bad n q s.now }
{
    if id(s) != q {
        return true;
    }
    if type_bad(s) {
        return true;
    }
    n - q <= overflow(s)
}

// Whether the table of elements breaks rule 5.
pub fn table_bad(b: &[u8], leaf: bool, empty: bool) -> bool
    requires { 32 ≤ length b.now }
    ensures { result ≡ table_bad leaf empty b.now }
{
    let n = count(b);
    if n == 0 {
        return !empty;
    }
    if leaf {
        return (b.len() - HEADER_SIZE) / LEAF_SIZE < n;
    }
    (b.len() - HEADER_SIZE) / BRANCH_SIZE < n
}

// Whether a kind with a value of this size breaks rule 6.
pub fn kind_bad(kind: u8, size: usize) -> bool
    ensures { result ≡ kind_bad kind size }
{
    if kind == 0 {
        return false;
    }
    if kind == 1 {
        return size != 16;
    }
    true
}

// Whether a key and a value of these sizes, `pos` after `at`, start before `from` or end past `to`.
pub fn outside(from: usize, to: usize, at: usize, pos: usize, key: usize, value: usize) -> bool
    requires { (at ≤ from) × (from ≤ to) }
    ensures { result ≡ outside_of from to (at + pos) (at + pos + key + value) }
{
    if pos < from - at {
        return true;
    }
    if to - at < pos {
        return true;
    }
    let rest = to - at - pos;
    if rest < key {
        return true;
    }
    rest - key < value
}

// Whether a leaf's element `i` breaks rule 6; the table ends at `end`.
pub fn leaf_bad(b: &[u8], end: usize, i: usize) -> bool
    requires { (end ≡ table_end true b.now) × (end ≤ length b.now) × (i < count_of b.now) }
    ensures { result ≡ element_bad true b.now i }
{
    let at = HEADER_SIZE + LEAF_SIZE * i;
    let pos = u64_at(b, at + 8) as usize;
    let key = u64_at(b, at + 16) as usize;
    let value = u64_at(b, at + 24) as usize;
    if outside(end, b.len(), at, pos, key, value) {
        return true;
    }
    kind_bad(b[at], value)
}

// Whether a branch's element `i` breaks rule 6; the table ends at `end`.
pub fn branch_bad(b: &[u8], end: usize, i: usize) -> bool
    requires { (end ≡ table_end false b.now) × (end ≤ length b.now) × (i < count_of b.now) }
    ensures { result ≡ element_bad false b.now i }
{
    let at = HEADER_SIZE + BRANCH_SIZE * i;
    let key = u64_at(b, at + 8) as usize;
    let pos = u64_at(b, at + 16) as usize;
    outside(end, b.len(), at, pos, key, 0)
}

// Whether element `i` breaks rule 6.
fn element_bad(b: &[u8], leaf: bool, end: usize, i: usize) -> bool
    requires { (end ≡ table_end leaf b.now) × (end ≤ length b.now) × (i < count_of b.now) }
    ensures { result ≡ element_bad leaf b.now i }
{
    if leaf {
        return leaf_bad(b, end, i);
    }
    branch_bad(b, end, i)
}

// Where the table of `n` elements ends.
fn table_end(leaf: bool, n: usize) -> usize
    requires { element_at leaf n < 2 ^ 64 }
    ensures { result ≡ element_at leaf n }
{
    if leaf {
        return HEADER_SIZE + LEAF_SIZE * n;
    }
    HEADER_SIZE + BRANCH_SIZE * n
}

// Rule 6: the first element that breaks it.
fn check_elements(b: &[u8], leaf: bool, n: usize) -> Result<(), Breach>
    requires { (n ≡ count_of b.now) × (table_end leaf b.now ≤ length b.now) }
    ensures { result ≡ first_bad (element_bad leaf b.now) no_common Refusal.Element n 0 }
{
    let end = table_end(leaf, n);
    for i in 0..n {
        if element_bad(b, leaf, end, i) {
            return Err(Breach {
                refusal: Refusal::Element,
                element: i,
                common: 0,
            });
        }
    }
    Ok(())
}

// Rule 7: the first element whose key is not above the one before it, and how far the two are alike.
fn check_keys(b: &[u8], leaf: bool, n: usize) -> Result<(), Breach>
    requires { (n ≡ count_of b.now) × (table_end leaf b.now ≤ length b.now)
        × ((i : ℕ) → i < n → value_at leaf b.now i ≤ length b.now) }
    ensures { result ≡ first_bad (key_bad leaf b.now) (common_before leaf b.now) Refusal.KeyOrder (n - 1) 1 }
{
    for i in 1..n {
        let parting = compare(key(b, leaf, i - 1), key(b, leaf, i));
        if !parting.order.is_lt() {
            return Err(Breach {
                refusal: Refusal::KeyOrder,
                element: i,
                common: parting.common,
            });
        }
    }
    Ok(())
}

// Rules 6 and 7, one after the other: the first breach.
fn check_each(b: &[u8], leaf: bool, n: usize) -> Result<(), Breach>
    requires { (n ≡ count_of b.now) × (table_end leaf b.now ≤ length b.now) }
    ensures { result ≡ elements_of leaf b.now }
{
    check_elements(b, leaf, n)?;
    check_keys(b, leaf, n)
}

// Whether the elements keep rules 6 and 7, so that `check_each` finds no breach.
fn keeps(b: &[u8], leaf: bool, n: usize) -> bool
    requires { (n ≡ count_of b.now) × (table_end leaf b.now ≤ length b.now) }
    ensures { result ≡ is_sound (elements_of leaf b.now) }
{
    if leaf {
        return leaf_keeps(b, n);
    }
    branch_keeps(b, n)
}

// Rules 5 to 7 of a block: the first breach, which is looked for only where there is one. `empty` tells whether a count of 0 is allowed.
pub fn check(b: &[u8], leaf: bool, empty: bool) -> Result<(), Breach>
    requires { 32 ≤ length b.now }
    ensures { result ≡ check_of leaf empty b.now }
{
    if table_bad(b, leaf, empty) {
        return Err(Breach::from(Refusal::Table));
    }
    let n = count(b);
    if keeps(b, leaf, n) {
        return Ok(());
    }
    check_each(b, leaf, n)
}

// Whether a lent block's length breaks geometry.
fn length_bad(b: &[u8], p: usize) -> bool
    ensures { result ≡ length_bad p b.now }
{
    if !size_allowed(p) {
        return true;
    }
    if b.len() < p {
        return true;
    }
    b.len() % p != 0
}

// Whether a lent block's header has another type, or an overflow that disagrees with its length.
fn lent_header_bad(b: &[u8], p: usize) -> bool
    requires { length_bad p b.now ≡ false }
    ensures { result ≡ lent_header_bad p b.now }
{
    if type_bad(b) {
        return true;
    }
    overflow(b) != b.len() / p - 1
}

// The check of a lent single block, as an edit makes it.
pub fn lent_check(b: &[u8], p: usize) -> Result<(), Breach>
    ensures { result ≡ lent_check_of p b.now }
{
    if length_bad(b, p) {
        return Err(Breach::from(Refusal::Geometry));
    }
    if lent_header_bad(b, p) {
        return Err(Breach::from(Refusal::Header));
    }
    let leaf = is_leaf(b);
    check(b, leaf, leaf)
}
