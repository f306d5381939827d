// The resulting node of an edit: its size, and its block in the output.
ghost use Rattle.std.specs.Prelude.{◌≡◌, true, ◌+◌, ◌<◌, ◌≤◌};
ghost use Rattle.page.specs.PageRules.{SoundBlock};
ghost use Rattle.pack.specs.Pack.{node_size};
ghost use Rattle.pack.specs.Plan.{fresh, planned, Within};
ghost use Rattle.size.specs.Size.{node_limit, capped_size, entries_size};
ghost use Rattle.node.specs.Edit.{written, Edits};

use field::Refusal;
use pack::element::element_size;
use pack::write::{Plan, write};
use page::Breach;
use size::{NODE_HEADER, NODE_LIMIT, add_entries, add_size};

// A size with the plan's new entry more, if there is one, counted no further than one past the limit.
fn add_new(sum: usize, leaf: bool, plan: Plan, key: &[u8], value: &[u8]) -> usize
    requires { sum ≤ node_limit + 1 }
    ensures { result ≡ capped_size (sum + entries_size leaf (fresh plan key.now value.now)) }
{
    match plan.tag {
        Some(_) => {
            let a = add_size(sum, element_size(leaf));
            let k = add_size(a, key.len());
            add_size(k, value.len())
        }
        None => sum,
    }
}

// The node size of the planned entries, counted no further than one past the limit.
fn plan_size(b: &[u8], leaf: bool, plan: Plan, key: &[u8], value: &[u8]) -> usize
    requires sound_block { SoundBlock leaf true b.now }
    requires within { Within b.now plan }
    ensures { result ≡ capped_size (node_size leaf (planned leaf b.now plan key.now value.now)) }
{
    let front = add_entries(b, leaf, plan.first, plan.stop, NODE_HEADER);
    let middle = add_new(front, leaf, plan, key, value);
    add_entries(b, leaf, plan.resume, plan.last, middle)
}

// Writes the block of the planned entries: refused where the node is above the limit, and where the output is too short.
pub fn write_planned(
    b: &[u8],
    leaf: bool,
    plan: Plan,
    key: &[u8],
    value: &[u8],
    id: u64,
    p: usize,
    out: &mut [u8],
) -> Result<usize, Breach>
    requires sound_block { SoundBlock leaf true b.now }
    requires within { Within b.now plan }
    requires p_nonzero { (0 < p) × (p ≤ 65536) }
    ensures { Edits leaf id p out.old
        (written leaf p out.old (planned leaf b.now plan key.now value.now)) result out.new }
{
    let size = plan_size(b, leaf, plan, key, value);
    if NODE_LIMIT < size {
        return Err(Breach::from(Refusal::NodeTooLarge));
    }
    if out.len() / p < size.div_ceil(p) {
        return Err(Breach::from(Refusal::OutputShort));
    }
    Ok(write(b, leaf, plan, key, value, id, p, out))
}
