// The insertion in a branch: of an entry in place of the one with an original key, or of one more.

#![tactic(auto)]

ghost use Rattle.std.specs.Prelude.{◌≡◌, true, false, [], ◌<◌, option_copied};
ghost use Rattle.page.specs.Layout.{id_of, count_of, is_leaf, entries_of};
ghost use Rattle.page.specs.PageRules.{SoundBlock, lent_check_of};
ghost use Rattle.pack.specs.Plan.{entry_with, replace_at};
ghost use Rattle.node.specs.Edit.{written, Edits, replace_branch, add_branch, insert_branch_of};
ghost use Rattle.node.specs.Neighbours.{not_above, not_below};

use field::Refusal;
use node::place::put;
use node::result::write_planned;
use pack::write::Plan;
use page::Breach;
use page::layout::{count, id, is_leaf, key_order};
use page::rules::lent_check;
use page::search::find;

// Whether the key is not above that of the entry before entry `i`.
fn not_above(b: &[u8], i: usize, key: &[u8]) -> bool
    requires { (i < count_of b.now) × SoundBlock false true b.now }
    ensures { result ≡ not_above b.now i key.now }
{
    0 < i && key_order(b, false, i - 1, key).is_ge()
}

// Whether the key is not below that of the entry after entry `i`.
fn not_below(b: &[u8], n: usize, i: usize, key: &[u8]) -> bool
    requires { (n ≡ count_of b.now) × (i < n) × SoundBlock false true b.now }
    ensures { result ≡ not_below b.now i key.now }
{
    i + 1 < n && key_order(b, false, i + 1, key).is_le()
}

// Writes a sound branch with another entry `i`.
fn replace(
    b: &[u8],
    p: usize,
    i: usize,
    key: &[u8],
    child: u64,
    out: &mut [u8],
) -> Result<usize, Breach>
    requires { (lent_check_of p b.now ≡ Ok tt) × (is_leaf b.now ≡ false) × (i < count_of b.now) }
    ensures { Edits false (id_of b.now) p out.old
        (written false p out.old (replace_at i (entry_with child key.now []) (entries_of false b.now))) result out.new }
{
    let n = count(b);
    let page = id(b) as u64;
    let plan = Plan {
        first: 0,
        stop: i,
        tag: Some(child),
        resume: i + 1,
        last: n,
    };
    write_planned(b, false, plan, key, b"", page, p, out)
}

// Writes a sound branch with another entry in place of the one with the original key.
fn replace_branch(
    b: &[u8],
    p: usize,
    original: &[u8],
    key: &[u8],
    child: u64,
    out: &mut [u8],
) -> Result<usize, Breach>
    requires { (lent_check_of p b.now ≡ Ok tt) × (is_leaf b.now ≡ false) }
    ensures { Edits false (id_of b.now) p out.old
        (replace_branch p out.old original.now (entry_with child key.now []) (entries_of false b.now)) result out.new }
{
    let n = count(b);
    let place = find(b, false, n, original);
    if !place.found {
        return Err(Breach::from(Refusal::Conflict));
    }
    let i = place.at;
    if not_above(b, i, key) || not_below(b, n, i, key) {
        return Err(Breach::from(Refusal::Conflict));
    }
    replace(b, p, i, key, child, out)
}

// Writes a sound branch with one entry more, put in order.
fn add_branch(b: &[u8], p: usize, key: &[u8], child: u64, out: &mut [u8]) -> Result<usize, Breach>
    requires { (lent_check_of p b.now ≡ Ok tt) × (is_leaf b.now ≡ false) }
    ensures { Edits false (id_of b.now) p out.old
        (add_branch p out.old (entry_with child key.now []) (entries_of false b.now)) result out.new }
{
    let place = find(b, false, count(b), key);
    if place.found {
        return Err(Breach::from(Refusal::Conflict));
    }
    put(b, false, p, child, key, b"", out)
}

// Writes a lent branch with an entry put in order, or, where there is an original key, in place of the one that has it.
pub fn insert_branch(
    b: &[u8],
    p: usize,
    original: Option<&[u8]>,
    key: &[u8],
    child: u64,
    out: &mut [u8],
) -> Result<usize, Breach>
    ensures { Edits false (id_of b.now) p out.old
        (insert_branch_of p b.now (option_copied original.entry) key.now child out.old) result out.new }
{
    lent_check(b, p)?;
    if is_leaf(b) || child < 2 {
        return Err(Breach::from(Refusal::Argument));
    }
    match original {
        Some(original) => replace_branch(b, p, original, key, child, out),
        None => add_branch(b, p, key, child, out),
    }
}
