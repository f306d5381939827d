// The halving of a branch: its loop closes in by halves, and counts nothing. Each kind has a loop of its own, for speed (docs/DECISIONS.md), so that none tests it.
ghost use Rattle.std.specs.Prelude.{◌≡◌, false, ◌≤◌, length};
ghost use Rattle.page.specs.Layout.{count_of, table_end};
ghost use Rattle.quick.specs.Halving.{halves_of};

use super::halving::place_at;
use page::layout::{BRANCH_SIZE, HEADER_SIZE, key_order};
use page::rules::branch_bad;
use page::search::Place;
use std::cmp::Ordering;

// Where a key is among the `n` of a branch, each element looked at judged by rule 6; or the element that breaks it.
pub fn halve_branch(b: &[u8], n: usize, key: &[u8]) -> Result<Place, usize>
    requires { (n ≡ count_of b.now) × (table_end false b.now ≤ length b.now) }
    ensures { result ≡ halves_of false b.now key.now }
{
    let end = HEADER_SIZE + BRANCH_SIZE * n;
    let mut low = 0;
    let mut high = n;
    while low < high {
        let middle = (low + high) / 2;
        if branch_bad(b, end, middle) {
            return Err(middle);
        }
        match key_order(b, false, middle, key) {
            Ordering::Less => low = middle + 1,
            Ordering::Equal => {
                return Ok(Place {
                    at: middle,
                    found: true,
                });
            }
            Ordering::Greater => high = middle,
        }
    }
    Ok(place_at(low))
}
