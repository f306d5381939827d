// The size of a lent node, and whether it is to be merged.
ghost use Rattle.std.specs.Prelude.{◌≡◌};
ghost use Rattle.node.specs.Measure.{size_of, needs_merging_of};

use field::Refusal;
use page::Breach;
use page::layout::{count, is_leaf};
use page::rules::lent_check;
use size::{NODE_LIMIT, node_size};

// The size of a node, and the pages that it needs.
#[derive(Clone, Copy)]
pub struct Measure {
    pub bytes: usize,
    pub pages: usize,
}

// The size of a lent block's node, and the pages that it needs.
pub fn size(b: &[u8], p: usize) -> Result<Measure, Breach>
    ensures { result ≡ size_of p b.now }
{
    lent_check(b, p)?;
    let bytes = node_size(b, is_leaf(b));
    if NODE_LIMIT < bytes {
        return Err(Breach::from(Refusal::NodeTooLarge));
    }
    Ok(Measure {
        bytes,
        pages: bytes.div_ceil(p),
    })
}

// Whether merging is wanted of a lent block: it has fewer than 2 entries, or its size is below a quarter of a page.
pub fn needs_merging(b: &[u8], p: usize) -> Result<bool, Breach>
    ensures { result ≡ needs_merging_of p b.now }
{
    lent_check(b, p)?;
    Ok(count(b) < 2 || node_size(b, is_leaf(b)) < p / 4)
}
