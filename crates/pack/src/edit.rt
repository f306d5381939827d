// The block of a range of a source's entries.
ghost use Rattle.std.specs.Prelude.{◌≡◌, true, ◌++◌, ◌<◌, ◌≤◌, length, drop};
ghost use Rattle.page.specs.Layout.{count_of, entries_of};
ghost use Rattle.page.specs.PageRules.{SoundBlock};
ghost use Rattle.pack.specs.Pack.{block_size, pack};
ghost use Rattle.pack.specs.Plan.{cut_of};

use super::write::{Plan, write};

// Writes the block of the source's entries from `i` up to `j`, and says how long it is.
pub fn cut(block: &[u8], leaf: bool, i: usize, j: usize, id: u64, p: usize, out: &mut [u8]) -> usize
    requires sound_block { SoundBlock leaf true block.now }
    requires i_le_j { (i ≤ j) × (j ≤ count_of block.now) × (0 < p) × (p ≤ 65536)
        × (block_size leaf (cut_of i j (entries_of leaf block.now)) p ≤ length out.old) }
    ensures { (result ≡ block_size leaf (cut_of i j (entries_of leaf block.now)) p)
        × (out.new ≡ pack leaf id (cut_of i j (entries_of leaf block.now)) p ++ drop result out.old) }
{
    let plan = Plan {
        first: i,
        stop: j,
        tag: None,
        resume: j,
        last: j,
    };
    write(block, leaf, plan, block, block, id, p, out)
}
