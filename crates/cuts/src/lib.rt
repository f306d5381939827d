// Where a block's node is cut.

#![tactic(auto)]

ghost use Rattle.std.specs.Prelude.{◌≡◌, true, ◌+◌, ◌≤◌, min, length};
ghost use Rattle.field.specs.Sizes.{size_allowed};
ghost use Rattle.field.specs.Run.{put_at};
ghost use Rattle.page.specs.Layout.{count_of, entries_of};
ghost use Rattle.page.specs.PageRules.{SoundBlock};
ghost use Rattle.pack.specs.Pack.{node_size};
ghost use Rattle.size.specs.Size.{capped_size};
ghost use Rattle.cuts.specs.Split.{threshold, cuts_of};
ghost use Rattle.cuts.specs.Run.{restart, cuts_after, first_cut, run_end};
ghost use Rattle.cuts.specs.Parted.{parted_if, block_cuts, split_of, list_left};

use field::Refusal;
use page::Breach;
use page::layout::{count, is_leaf};
use page::rules::lent_check;
use size::{NODE_HEADER, NODE_LIMIT, entry_size, node_size};

// A cut is made only after so many entries.
const MIN_KEYS_PER_NODE: usize = 2;

// The threshold of a page size: half of it, worked out in f32 as the crate does.
pub fn half(p: usize) -> u64
    requires { size_allowed p ≡ true }
    ensures { result ≡ threshold p }
{
    ((p as f32) * 0.5) as u64
}

// The sum of two numbers, counted no further than `cap`.
pub fn add_capped(a: usize, b: usize, cap: usize) -> usize
    ensures { result ≡ min (a + b) cap }
{
    if cap.saturating_sub(a) <= b {
        return cap;
    }
    a + b
}

// The sum that a run starts with after the cut at `c`, or at the start, counted no further than `cap`.
fn start_sum(b: &[u8], leaf: bool, c: usize, cap: usize) -> usize
    requires sound_block { SoundBlock leaf true b.now }
    requires c_bound { (c ≤ count_of b.now) × (40 ≤ cap) }
    ensures { result ≡ min (restart leaf b.now c) cap }
{
    if c == 0 {
        return NODE_HEADER;
    }
    add_capped(NODE_HEADER, entry_size(b, leaf, c - 1), cap)
}

// The next cut after the one at `c`, or after the start, of a run that ends before entry `end`.
pub fn next_cut(b: &[u8], leaf: bool, t: usize, end: usize, c: usize) -> Option<usize>
    requires sound_block { SoundBlock leaf true b.now }
    requires c_bound { (c ≤ count_of b.now) × (end ≤ count_of b.now) × (40 ≤ t) × (t ≤ 65536) }
    ensures { result ≡ first_cut (cuts_after leaf t b.now end c) }
{
    let past = t + 1;
    let mut sum = start_sum(b, leaf, c, past);
    for i in c..end {
        sum = add_capped(sum, entry_size(b, leaf, i), past);
        let since = i + 1 - c;
        if MIN_KEYS_PER_NODE <= since && t < sum {
            return Some(i + 1);
        }
    }
    None
}

// How many cuts a run makes that ends before entry `end`.
pub fn count_cuts(b: &[u8], leaf: bool, t: usize, end: usize) -> usize
    requires sound_block { SoundBlock leaf true b.now }
    requires end_bound { (end ≤ count_of b.now) × (40 ≤ t) × (t ≤ 65536) }
    ensures { (result ≡ length (cuts_after leaf t b.now end 0)) × (result ≤ end) }
{
    let mut made = 0;
    let mut c = 0;
    while let Some(next) = next_cut(b, leaf, t, end, c) {
        made += 1;
        c = next;
    }
    made
}

// Writes the cuts of a run that ends before entry `end`.
fn write_cuts(b: &[u8], leaf: bool, t: usize, end: usize, cuts: &mut [u64])
    requires sound_block { SoundBlock leaf true b.now }
    requires end_bound { (end ≤ count_of b.now) × (40 ≤ t) × (t ≤ 65536) × (length (cuts_after leaf t b.now end 0) ≤ length cuts.old) }
    ensures { cuts.new ≡ put_at cuts.old 0 (cuts_after leaf t b.now end 0) }
{
    let mut at = 0;
    let mut from = 0;
    while let Some(cut) = next_cut(b, leaf, t, end, from) {
        cuts[at] = cut as u64;
        at += 1;
        from = cut;
    }
}

// Where the run over a block's entries ends, for a node of this size.
pub fn run_end(b: &[u8], leaf: bool, p: usize, size: usize) -> usize
    requires sound_block { SoundBlock leaf true b.now }
    requires p_bound { (p ≤ 65536) × (size ≡ capped_size (node_size leaf (entries_of leaf b.now))) }
    ensures { result ≡ run_end leaf p b.now }
{
    let n = count(b);
    if n <= MIN_KEYS_PER_NODE * 2 || size < p {
        return 0;
    }
    n - MIN_KEYS_PER_NODE
}

// The cuts of a sound block into the lent list, and how many there are.
fn split_sound(b: &[u8], leaf: bool, p: usize, cuts: &mut [u64]) -> Result<usize, Breach>
    requires sound_block { SoundBlock leaf true b.now }
    requires p_value { size_allowed p ≡ true }
    ensures { (result ≡ parted_if (node_size leaf (entries_of leaf b.now)) (cuts_of leaf p (entries_of leaf b.now)) (length cuts.old))
        × (cuts.new ≡ list_left result (cuts_of leaf p (entries_of leaf b.now)) cuts.old) }
{
    let size = node_size(b, leaf);
    if NODE_LIMIT < size {
        return Err(Breach::from(Refusal::NodeTooLarge));
    }
    let t = half(p) as usize;
    let end = run_end(b, leaf, p, size);
    let made = count_cuts(b, leaf, t, end);
    if cuts.len() < made {
        return Err(Breach::from(Refusal::OutputShort));
    }
    write_cuts(b, leaf, t, end, cuts);
    Ok(made)
}

// The cuts of a lent block into the lent list, and how many there are.
pub fn split(b: &[u8], p: usize, cuts: &mut [u64]) -> Result<usize, Breach>
    ensures { (result ≡ split_of p b.now (length cuts.old))
        × (cuts.new ≡ list_left result (block_cuts p b.now) cuts.old) }
{
    lent_check(b, p)?;
    split_sound(b, is_leaf(b), p, cuts)
}
