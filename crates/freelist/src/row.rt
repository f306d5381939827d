// A row of pages: whether all are in use, and each put in one state or released.
ghost use Rattle.std.specs.Prelude.{◌≡◌, ◌+◌, ◌<◌, ◌≤◌, length};
ghost use Rattle.freelist.specs.Table.{state_of, is_in_use, put};
ghost use Rattle.freelist.specs.Pages.{pages_from, all, each};
ghost use Rattle.freelist.specs.Freelist.{block_allowed, free_check, ripe, release_table};

use super::check::check_table;
use super::table::{State, is_in_use, put_state, state_of};
use field::Refusal;

// Whether each of the `count` pages from `p` on is in use.
fn all_in_use(t: &[u64], p: u64, count: u64) -> bool
    requires { (p + count ≤ 32768) × (33792 ≤ length t.now) }
    ensures { result ≡ all (λ k. is_in_use (state_of t.now k)) (pages_from p count) }
{
    (p..p + count).all(|i| is_in_use(state_of(t, i)))
}

// Whether the `count` pages from `p` on are at least one, and lie inside 2 to n - 1.
fn is_inside(n: u64, p: u64, count: u64) -> bool
    ensures { result ≡ block_allowed n p count }
{
    1 <= count && 2 <= p && p <= n && count <= n - p
}

// Ok where `free` takes the pages, and else why it refuses.
pub fn check_used(t: &[u64], n: u64, p: u64, count: u64) -> Result<(), Refusal>
    ensures { result ≡ free_check t.now n p count }
{
    check_table(t, n)?;
    if !is_inside(n, p, count) || !all_in_use(t, p, count) {
        return Err(Refusal::Argument);
    }
    Ok(())
}

// Puts each of the `count` pages from `p` on in the state `s`.
pub fn put_all(t: &mut [u64], p: u64, count: u64, s: State)
    requires { (p + count ≤ 32768) × (33792 ≤ length t.old) }
    ensures { t.new ≡ each (λ old. s) (pages_from p count) t.old }
{
    for i in p..p + count {
        put_state(t, i, s);
    }
}

// Frees page `p` where it is pending under a number below `tx`.
fn release_page(t: &mut [u64], p: u64, tx: u64)
    requires { (p < 32768) × (33792 ≤ length t.old) }
    ensures { t.new ≡ put t.old p (ripe tx (state_of t.old p)) }
{
    if let State::Pending(x) = state_of(t, p) {
        if x < tx {
            put_state(t, p, State::Free);
        }
    }
}

// Frees each page from 2 to n - 1 that is pending under a number below `tx`.
pub fn release_all(t: &mut [u64], n: u64, tx: u64)
    requires { (n ≤ 32768) × (33792 ≤ length t.old) }
    ensures { t.new ≡ release_table t.old n tx }
{
    for i in 2..n {
        release_page(t, i, tx);
    }
}
