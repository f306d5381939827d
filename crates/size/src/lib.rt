// Node sizes: of one entry, and of a whole block.

#![tactic(auto)]

ghost use Rattle.std.specs.Prelude.{◌≡◌, true, ◌+◌, ◌<◌, ◌≤◌};
ghost use Rattle.page.specs.Layout.{count_of, entry_of, entries_of};
ghost use Rattle.page.specs.PageRules.{SoundBlock};
ghost use Rattle.pack.specs.Pack.{entry_size, node_size};
ghost use Rattle.pack.specs.Plan.{range};
ghost use Rattle.size.specs.Size.{node_limit, capped_size, entries_size};

use pack::element::{element_size, value};
use page::layout::{count, key};

// The largest node size that is allowed.
pub const NODE_LIMIT: usize = 1048576;

// The size of a node with no entries.
pub const NODE_HEADER: usize = 40;

// How many bytes entry `i` takes: its element, its key and its value.
pub fn entry_size(b: &[u8], leaf: bool, i: usize) -> usize
    requires { (i < count_of b.now) × SoundBlock leaf true b.now }
    ensures { result ≡ entry_size leaf (entry_of leaf b.now i) }
{
    let k = key(b, leaf, i);
    let v = value(b, leaf, i);
    element_size(leaf) + (k.len() + v.len())
}

// Kept, a test, here and in cuts' `add_capped`: with `min` each sum waits for the one before, and a branch's split takes a tenth longer.
// A size with some bytes more, counted no further than one past the limit.
pub fn add_size(sum: usize, more: usize) -> usize
    ensures { result ≡ capped_size (sum + more) }
{
    if (NODE_LIMIT + 1).saturating_sub(sum) <= more {
        return NODE_LIMIT + 1;
    }
    sum + more
}

// A size with the entries from `from` to `to` more, counted no further than one past the limit.
pub fn add_entries(b: &[u8], leaf: bool, from: usize, to: usize, sum: usize) -> usize
    requires { (sum ≤ node_limit + 1) × (to ≤ count_of b.now) × SoundBlock leaf true b.now }
    ensures { result ≡ capped_size (sum + entries_size leaf (range leaf b.now from to)) }
{
    let mut total = sum;
    for i in from..to {
        total = add_size(total, entry_size(b, leaf, i));
    }
    total
}

// The node size of a sound block, counted no further than one past the limit.
pub fn node_size(b: &[u8], leaf: bool) -> usize
    requires { SoundBlock leaf true b.now }
    ensures { result ≡ capped_size (node_size leaf (entries_of leaf b.now)) }
{
    let n = count(b);
    add_entries(b, leaf, 0, n, NODE_HEADER)
}
