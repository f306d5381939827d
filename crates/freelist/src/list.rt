// Lists of page numbers: the initial list, and the listing of free and pending pages.
ghost use Rattle.std.specs.Prelude.{◌≡◌, ℕ, ◌<◌, ◌≤◌, length, get_or};
ghost use Rattle.freelist.specs.Table.{state_of, is_listed};
ghost use Rattle.freelist.specs.Freelist.{initial, init_check, init_table, listing, pages_list};

use super::check::check_table;
use super::table::{PENDING_WORDS, State, is_in_use, put_state, state_of};
use field::Refusal;

// Whether the ids rise strictly, and each is from 2 to n - 1 and in use.
fn is_initial(t: &[u64], n: u64, ids: &[u64]) -> bool
    requires { (n ≤ 32768) × (33792 ≤ length t.now) }
    ensures { result ≡ initial t.now n ids.now }
{
    let mut low = 2;
    for &id in ids {
        if id < low || n <= id || !is_in_use(state_of(t, id)) {
            return false;
        }
        low = id + 1;
    }
    true
}

// Ok where `init` takes the ids, and else why it refuses.
pub fn check_initial(t: &[u64], n: u64, ids: &[u64]) -> Result<(), Refusal>
    ensures { result ≡ init_check t.now n ids.now }
{
    check_table(t, n)?;
    if !is_initial(t, n, ids) {
        return Err(Refusal::Argument);
    }
    Ok(())
}

// Frees each of the ids.
pub fn free_each(t: &mut [u64], ids: &[u64])
    requires { ((k : ℕ) → k < length ids.now → get_or ids.now k 0 < 32768) × (33792 ≤ length t.old) }
    ensures { t.new ≡ init_table t.old ids.now }
{
    for &id in ids {
        put_state(t, id, State::Free);
    }
}

// Whether page `k` is free or pending: one of its two bits is on, and not both.
fn is_listed(t: &[u64], k: u64) -> bool
    requires { (k < 32768) × (33792 ≤ length t.now) }
    ensures { result ≡ is_listed (state_of t.now k) }
{
    let at = (k / 64) as usize;
    let one = t[at] ^ t[PENDING_WORDS + at];
    (one >> (k % 64)) % 2 == 1
}

// How many of the pages from 2 to n - 1 are free or pending.
pub fn count_listed(t: &[u64], n: u64) -> u64
    requires { (n ≤ 32768) × (33792 ≤ length t.now) }
    ensures { (result ≡ length (listing t.now n)) × (result ≤ n) }
{
    let mut count = 0;
    for i in 2..n {
        if is_listed(t, i) {
            count += 1;
        }
    }
    count
}

// Writes the free and pending ones of the pages from 2 to n - 1 from `ids[0]` on.
pub fn write_listed(t: &[u64], n: u64, ids: &mut [u64])
    requires { (n ≤ 32768) × (33792 ≤ length t.now) × (length (listing t.now n) ≤ length ids.old) }
    ensures { ids.new ≡ pages_list t.now n ids.old }
{
    let mut at = 0;
    for i in 2..n {
        if is_listed(t, i) {
            ids[at] = i;
            at += 1;
        }
    }
}
