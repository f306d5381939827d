// The lent table: two bits and a number for each page, and what they say of its state.
ghost use Rattle.std.specs.Prelude.{◌≡◌, ◌<◌, ◌≤◌, length};
ghost use Rattle.freelist.specs.Table.{bit, put_bit, state_of, is_in_use, free_bit, pending_bit, put};
ghost use Rattle.freelist.specs.Freelist.{new_table};

// The most pages that a table has room for, and the words that it takes.
pub const MOST_PAGES: u64 = 32768;

pub const TABLE_WORDS: usize = 33792;

// The words that hold bits; where the pending bits start, as a bit and as a word; and where the numbers start.
const BIT_WORDS: usize = 1024;

const PENDING_BITS: u64 = 32768;

pub const PENDING_WORDS: usize = 512;

const NUMBERS: u64 = 1024;

// A page's state. A page with both bits is in none of the three, which is `Broken`.
#[derive(Clone, Copy)]
pub enum State {
    InUse,
    Free,
    Pending(u64),
    Broken,
}

// Whether bit `j` is on.
pub fn bit_of(t: &[u64], j: u64) -> bool
    requires { (j < 65536) × (1024 ≤ length t.now) }
    ensures { result ≡ bit t.now j }
{
    let at = (j / 64) as usize;
    (t[at] >> (j % 64)) % 2 == 1
}

// Makes bit `j` on or off.
fn put_bit(t: &mut [u64], j: u64, on: bool)
    requires { (j < 65536) × (1024 ≤ length t.old) }
    ensures { t.new ≡ put_bit t.old j on }
{
    let at = (j / 64) as usize;
    let one = 1u64 << (j % 64);
    let w = t[at] | one;
    t[at] = if on { w } else { w ^ one };
}

// Makes every bit off, so that each page is in use.
pub fn clear_bits(t: &mut [u64])
    requires { 1024 ≤ length t.old }
    ensures { t.new ≡ new_table t.old }
{
    t[..BIT_WORDS].fill(0);
}

// The state of page `k`.
pub fn state_of(t: &[u64], k: u64) -> State
    requires { (k < 32768) × (33792 ≤ length t.now) }
    ensures { result ≡ state_of t.now k }
{
    match (bit_of(t, k), bit_of(t, PENDING_BITS + k)) {
        (false, false) => State::InUse,
        (true, false) => State::Free,
        (false, true) => State::Pending(t[(NUMBERS + k) as usize]),
        (true, true) => State::Broken,
    }
}

// Puts page `p` in the state `s`.
pub fn put_state(t: &mut [u64], p: u64, s: State)
    requires { (p < 32768) × (33792 ≤ length t.old) }
    ensures { t.new ≡ put t.old p s }
{
    put_bit(t, p, free_bit(s));
    put_bit(t, PENDING_BITS + p, pending_bit(s));
    if let State::Pending(x) = s {
        t[(NUMBERS + p) as usize] = x;
    }
}

// The free bit of a page in the state `s`.
fn free_bit(s: State) -> bool
    ensures { result ≡ free_bit s }
{
    matches!(s, State::Free | State::Broken)
}

// The pending bit of a page in the state `s`.
fn pending_bit(s: State) -> bool
    ensures { result ≡ pending_bit s }
{
    matches!(s, State::Pending(_) | State::Broken)
}

// Whether `s` is in use.
pub fn is_in_use(s: State) -> bool
    ensures { result ≡ is_in_use s }
{
    matches!(s, State::InUse)
}
