// Where a new entry goes among a sound block's, and the block with it.
ghost use Rattle.std.specs.Prelude.{◌≡◌, true, false, List, ℕ};
ghost use Rattle.page.specs.Layout.{id_of, count_of, is_leaf, entries_of};
ghost use Rattle.page.specs.PageRules.{SoundBlock, lent_check_of};
ghost use Rattle.page.specs.Search.{place_of};
ghost use Rattle.pack.specs.Plan.{entry_with, planned, Within};
ghost use Rattle.node.specs.Edit.{written, Edits, inserted};
ghost use Rattle.node.specs.Neighbours.{Between};

use super::result::write_planned;
use pack::write::Plan;
use page::Breach;
use page::layout::{count, id, key_order};
use page::search::find;

// The place of an absent key, of which the search told `at`: the keys before it are lower, and those from it on higher.
fn insertion_place(b: &[u8], leaf: bool, n: usize, key: &[u8], at: usize) -> usize
    requires { (n ≡ count_of b.now) × SoundBlock leaf true b.now × (place_of leaf b.now key.now ≡ record { at = at; found = false }) }
    ensures { Between leaf b.now key.now result }
{
    if n == 0 {
        return 0;
    }
    if key_order(b, leaf, at, key).is_lt() {
        at + 1
    } else {
        at
    }
}

// The plan of a sound block's entries with a new one put in order, in place of one with an equal key.
fn plan_of(b: &[u8], leaf: bool, tag: u64, key: &[u8]) -> Plan
    requires { SoundBlock leaf true b.now }
    ensures { Within b.now result
        × ((value : List ℕ) → planned leaf b.now result key.now value
        ≡ inserted (entry_with tag key.now value) (entries_of leaf b.now)) }
{
    let n = count(b);
    let place = find(b, leaf, n, key);
    let at = place.at;
    if place.found {
        return Plan {
            first: 0,
            stop: at,
            tag: Some(tag),
            resume: at + 1,
            last: n,
        };
    }
    let i = insertion_place(b, leaf, n, key, at);
    Plan {
        first: 0,
        stop: i,
        tag: Some(tag),
        resume: i,
        last: n,
    }
}

// Writes a sound block with an entry put in order, in place of one with an equal key.
pub fn put(
    b: &[u8],
    leaf: bool,
    p: usize,
    tag: u64,
    key: &[u8],
    value: &[u8],
    out: &mut [u8],
) -> Result<usize, Breach>
    requires { (lent_check_of p b.now ≡ Ok tt) × (is_leaf b.now ≡ leaf) }
    ensures { Edits leaf (id_of b.now) p out.old
        (written leaf p out.old (inserted (entry_with tag key.now value.now) (entries_of leaf b.now))) result out.new }
{
    let page = id(b) as u64;
    let plan = plan_of(b, leaf, tag, key);
    write_planned(b, leaf, plan, key, value, page, p, out)
}
