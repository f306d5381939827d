// The checks that come before every call: the geometry, and that each page from 2 to n - 1 is in one of the three states.
ghost use Rattle.std.specs.Prelude.{◌≡◌, ◌+◌, ◌-◌, ◌*◌, ◌%◌, ◌≤◌, length};
ghost use Rattle.freelist.specs.Table.{state_of, is_state};
ghost use Rattle.freelist.specs.Pages.{pages_from, pages_of, all};
ghost use Rattle.freelist.specs.Freelist.{fault_of};

use super::table::{PENDING_WORDS, TABLE_WORDS};
use field::Refusal;
use field::sizes::count_allowed;

// Whether none of the `k` pages from `i` on, which share a word, has both bits.
fn word_passes(t: &[u64], i: u64, k: u64) -> bool
    requires { (i % 64 + k ≤ 64) × (i + k ≤ 32768) × (33792 ≤ length t.now) }
    ensures { result ≡ all (λ p. is_state (state_of t.now p)) (pages_from i k) }
{
    if k < 1 {
        return true;
    }
    let at = (i / 64) as usize;
    let both = t[at] & t[PENDING_WORDS + at];
    (both >> (i % 64)) << (64 - k) == 0
}

// Whether none of the pages of words 1 to m - 1 has both bits: what each shares with its word of pending bits is gathered, and tested once.
fn words_pass(t: &[u64], m: usize) -> bool
    requires { (m ≤ 512) × (33792 ≤ length t.now) }
    ensures { result ≡ all (λ p. is_state (state_of t.now p)) (pages_from 64 (64 * m - 64)) }
{
    let mut bad = 0;
    for i in 1..m {
        bad |= t[i] & t[PENDING_WORDS + i];
    }
    bad == 0
}

// Whether each page from 2 to n - 1 is in one of the three states: those of the first word, of the whole words, and of the last.
fn all_states(t: &[u64], n: u64) -> bool
    requires { (2 ≤ n) × (n ≤ 32768) × (33792 ≤ length t.now) }
    ensures { result ≡ all (λ p. is_state (state_of t.now p)) (pages_of n) }
{
    if n < 64 {
        return word_passes(t, 2, n - 2);
    }
    word_passes(t, 2, 62) && words_pass(t, (n / 64) as usize) && word_passes(t, n - n % 64, n % 64)
}

// Ok where a table and a page count pass, and else what is wrong with them.
pub fn check_table(t: &[u64], n: u64) -> Result<(), Refusal>
    ensures { result ≡ fault_of t.now n }
{
    if t.len() < TABLE_WORDS || !count_allowed(n as usize) {
        return Err(Refusal::Geometry);
    }
    if !all_states(t, n) {
        return Err(Refusal::Argument);
    }
    Ok(())
}
