// The one pass over a leaf's elements. Each kind has one of its own, so that none tests it: docs/DECISIONS.md.
ghost use Rattle.std.specs.Prelude.{◌≡◌, true, ◌≤◌, length};
ghost use Rattle.page.specs.Layout.{count_of, table_end};
ghost use Rattle.page.specs.PageRules.{is_sound, elements_of};

use super::layout::{HEADER_SIZE, LEAF_SIZE};
use super::rules::{kind_bad, outside};
use field::number::u64_at;
use field::order::is_below_at_once;

// Whether the `n` elements of a leaf keep rules 6 and 7, in one pass: each number is read once, and of the key before its place is kept.
pub fn leaf_keeps(b: &[u8], n: usize) -> bool
    requires { (n ≡ count_of b.now) × (table_end true b.now ≤ length b.now) }
    ensures { result ≡ is_sound (elements_of true b.now) }
{
    let end = HEADER_SIZE + LEAF_SIZE * n;
    let mut start = 0;
    let mut stop = 0;
    for i in 0..n {
        let at = HEADER_SIZE + LEAF_SIZE * i;
        let pos = u64_at(b, at + 8) as usize;
        let key = u64_at(b, at + 16) as usize;
        let value = u64_at(b, at + 24) as usize;
        if outside(end, b.len(), at, pos, key, value) {
            return false;
        }
        if kind_bad(b[at], value) {
            return false;
        }
        let from = at + pos;
        let to = from + key;
        if 0 < i {
            if !is_below_at_once(&b[start..stop], &b[from..to]) {
                return false;
            }
        }
        start = from;
        stop = to;
    }
    true
}
