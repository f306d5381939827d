// Runs of free pages: what a request for bytes has to pass, how many pages are needed, and the lowest run of so many.
ghost use Rattle.std.specs.Prelude.{◌≡◌, true, ℕ, ◌<◌, ◌≤◌, length, MatchOption};
ghost use Rattle.freelist.specs.Table.{state_of, is_state};
ghost use Rattle.field.specs.Sizes.{pages_needed};
ghost use Rattle.freelist.specs.Freelist.{request_fault, lowest};

use super::HEADER_SIZE;
use super::check::check_table;
use super::table::bit_of;
use field::Refusal;
use field::sizes::size_allowed;

// Ok where a request for bytes passes, and else what is wrong with it, whether or not there are pages for it.
pub fn check_request(t: &[u64], n: u64, page_size: u64, bytes: u64) -> Result<(), Refusal>
    ensures { result ≡ request_fault t.now n page_size bytes }
{
    if !size_allowed(page_size as usize) {
        return Err(Refusal::Geometry);
    }
    check_table(t, n)?;
    if bytes < HEADER_SIZE {
        return Err(Refusal::Argument);
    }
    Ok(())
}

// The bytes over the page size, rounded up.
pub fn pages_needed(bytes: u64, page_size: u64) -> u64
    requires { 2 ≤ page_size }
    ensures { result ≡ pages_needed bytes page_size }
{
    bytes.div_ceil(page_size)
}

// The lowest s with pages s to s + pages - 1 all free and inside 2 to n - 1, if there is one: the pages from `start` to i are free.
pub fn lowest_run(t: &[u64], n: u64, pages: u64) -> Option<u64>
    requires { (2 ≤ n) × (n ≤ 32768) × (1 ≤ pages) × (33792 ≤ length t.now) × ((k : ℕ) → 2 ≤ k → k < n → is_state (state_of t.now k) ≡ true) }
    ensures { MatchOption result (lowest t.now n pages ≡ n) (λ s. (s ≡ lowest t.now n pages) × (s < n)) }
{
    let mut start = 2;
    for i in 2..n {
        if !bit_of(t, i) {
            start = i + 1;
        }
        if i + 1 - start == pages {
            return Some(start);
        }
    }
    None
}
