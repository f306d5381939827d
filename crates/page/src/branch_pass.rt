// The one pass over a branch's elements. Each kind has one of its own, so that none tests it: docs/DECISIONS.md.
ghost use Rattle.std.specs.Prelude.{◌≡◌, false, ◌≤◌, length};
ghost use Rattle.page.specs.Layout.{count_of, table_end};
ghost use Rattle.page.specs.PageRules.{is_sound, elements_of};

use super::layout::{BRANCH_SIZE, HEADER_SIZE};
use super::rules::outside;
use field::number::u64_at;
use field::order::is_below;

// Kept, by bytes: by an index, which wants a product each turn, the full lookup misses a bar (docs/DESIGN-PASS.md).
// Whether the `n` elements of a branch keep rules 6 and 7, in one pass: each number is read once, and of the key before its place is kept.
pub fn branch_keeps(b: &[u8], n: usize) -> bool
    requires { (n ≡ count_of b.now) × (table_end false b.now ≤ length b.now) }
    ensures { result ≡ is_sound (elements_of false b.now) }
{
    let end = HEADER_SIZE + BRANCH_SIZE * n;
    let mut at = HEADER_SIZE;
    let mut start = 0;
    let mut stop = 0;
    while at < end {
        let key = u64_at(b, at + 8) as usize;
        let pos = u64_at(b, at + 16) as usize;
        if outside(end, b.len(), at, pos, key, 0) {
            return false;
        }
        let from = at + pos;
        let to = from + key;
        if HEADER_SIZE < at {
            if !is_below(&b[start..stop], &b[from..to]) {
                return false;
            }
        }
        start = from;
        stop = to;
        at += BRANCH_SIZE;
    }
    true
}
