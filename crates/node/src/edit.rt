// Edits: each reads one lent block and writes the packed block of its result.
ghost use Rattle.std.specs.Prelude.{◌≡◌, true, false, ◌<◌, ◌≤◌};
ghost use Rattle.page.specs.Layout.{id_of, count_of, is_leaf, entries_of};
ghost use Rattle.page.specs.PageRules.{lent_check_of};
ghost use Rattle.pack.specs.Plan.{maybe, remove_at};
ghost use Rattle.node.specs.Edit.{written, Edits, output, delete_of, deleted_answer, new_leaf_of, new_branch_of, insert_of};

use super::place::put;
use super::result::write_planned;
use field::Refusal;
use field::sizes::size_allowed;
use pack::write::Plan;
use page::Breach;
use page::layout::{count, id, is_leaf};
use page::rules::{kind_bad, lent_check};
use page::search::{Leaf, leaf_at};

// What `delete` answers: the bytes of the block written, and where what was removed lies in the lent block.
#[derive(Clone, Copy)]
pub struct Removed {
    pub bytes: usize,
    pub leaf: Leaf,
}

// Writes a sound leaf without its entry `i`.
fn remove(b: &[u8], p: usize, i: usize, out: &mut [u8]) -> Result<usize, Breach>
    requires { (lent_check_of p b.now ≡ Ok tt) × (is_leaf b.now ≡ true) × (i < count_of b.now) }
    ensures { Edits true (id_of b.now) p out.old
        (written true p out.old (remove_at i (entries_of true b.now))) result out.new }
{
    let n = count(b);
    let page = id(b) as u64;
    let plan = Plan {
        first: 0,
        stop: i,
        tag: None,
        resume: i + 1,
        last: n,
    };
    write_planned(b, true, plan, b, b, page, p, out)
}

// Writes a lent leaf without its entry `i`, and says what that was.
pub fn delete(b: &[u8], p: usize, i: usize, out: &mut [u8]) -> Result<Removed, Breach>
    ensures { (result ≡ deleted_answer p b.now i (delete_of p b.now i out.old))
        × (out.new ≡ output true (id_of b.now) p out.old (delete_of p b.now i out.old)) }
{
    lent_check(b, p)?;
    if !is_leaf(b) || count(b) <= i {
        return Err(Breach::from(Refusal::Argument));
    }
    let leaf = leaf_at(b, i);
    let bytes = remove(b, p, i, out)?;
    Ok(Removed { bytes, leaf })
}

// Writes the node of one new entry if there is a tag, else of none. Its source is a block with no entries.
fn write_new(
    leaf: bool,
    tag: Option<u64>,
    key: &[u8],
    value: &[u8],
    id: u64,
    p: usize,
    out: &mut [u8],
) -> Result<usize, Breach>
    requires { (0 < p) × (p ≤ 65536) }
    ensures { Edits leaf id p out.old (written leaf p out.old (maybe tag key.now value.now)) result out.new }
{
    let source = [0; 32];
    let plan = Plan {
        first: 0,
        stop: 0,
        tag,
        resume: 0,
        last: 0,
    };
    write_planned(&source, leaf, plan, key, value, id, p, out)
}

// Writes an empty leaf.
pub fn new_leaf(p: usize, id: u64, out: &mut [u8]) -> Result<usize, Breach>
    ensures { Edits true id p out.old (new_leaf_of p out.old) result out.new }
{
    if !size_allowed(p) {
        return Err(Breach::from(Refusal::Geometry));
    }
    write_new(true, None, b"", b"", id, p, out)
}

// Writes a branch of one entry.
pub fn new_branch(
    p: usize,
    id: u64,
    key: &[u8],
    child: u64,
    out: &mut [u8],
) -> Result<usize, Breach>
    ensures { Edits false id p out.old (new_branch_of p key.now child out.old) result out.new }
{
    if !size_allowed(p) {
        return Err(Breach::from(Refusal::Geometry));
    }
    if child < 2 {
        return Err(Breach::from(Refusal::Argument));
    }
    write_new(false, Some(child), key, b"", id, p, out)
}

// Writes a lent leaf with an entry put in order, in place of one with an equal key.
pub fn insert_data(
    b: &[u8],
    p: usize,
    key: &[u8],
    kind: u8,
    value: &[u8],
    out: &mut [u8],
) -> Result<usize, Breach>
    ensures { Edits true (id_of b.now) p out.old
        (insert_of p b.now key.now kind value.now out.old) result out.new }
{
    lent_check(b, p)?;
    if !is_leaf(b) || kind_bad(kind, value.len()) {
        return Err(Breach::from(Refusal::Argument));
    }
    put(b, true, p, u64::from(kind), key, value, out)
}
