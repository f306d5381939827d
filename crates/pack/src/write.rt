// The writer: all elements, then all keys and values, then zeros to the block's end, and the header last.
ghost use Rattle.std.specs.Prelude.{◌≡◌, true, ◌++◌, ◌+◌, ◌-◌, ◌*◌, ◌<◌, ◌≤◌, is_some, length, take, drop};
ghost use Rattle.field.specs.Run.{put_at};
ghost use Rattle.std.specs.Int.{from_bool};
ghost use Rattle.page.specs.Layout.{count_of, element_size, element_at, key_at, value_end, entry_of};
ghost use Rattle.page.specs.PageRules.{SoundBlock};
ghost use Rattle.pack.specs.Pack.{block_size, type_number, header, element, body, table, bodies, pack};
ghost use Rattle.pack.specs.Plan.{range, fresh, planned, count_in, Within};

use super::element::{
    body_end, element_at, element_size, put_body, put_element, put_four, tag, value,
};
use field::run::{clear, copy};
use page::layout::{HEADER_SIZE, TYPE_BRANCH, TYPE_LEAF, key, key_at};

// Which entries a new block has: those of a source block from `first` to `stop`, a new one if there is a `tag`, and those from `resume` to `last`.
#[derive(Clone, Copy)]
pub struct Plan {
    pub first: usize,
    pub stop: usize,
    pub tag: Option<u64>,
    pub resume: usize,
    pub last: usize,
}

// Puts the element of the source's entry `i` at `at`, whose key and value are to stand from `d` on, and says where they are to end.
fn copy_element(block: &[u8], leaf: bool, i: usize, out: &mut [u8], at: usize, d: usize) -> usize
    requires sound_block { SoundBlock leaf true block.now }
    requires i_bound { (i < count_of block.now) × (at + element_size leaf ≤ d) × (d + length (body (entry_of leaf block.now i)) ≤ length out.old) }
    ensures { (result ≡ d + length (body (entry_of leaf block.now i)))
        × (out.new ≡ put_at out.old at (element leaf (d - at) (entry_of leaf block.now i))) }
{
    let t = tag(block, leaf, i);
    let k = key(block, leaf, i);
    let v = value(block, leaf, i);
    put_element(leaf, t, k, v, out, at, d)
}

// Puts the elements of the source's entries from `from` to `to`, and says where their keys and values are to end.
fn copy_table(
    block: &[u8],
    leaf: bool,
    from: usize,
    to: usize,
    out: &mut [u8],
    at: usize,
    d: usize,
) -> usize
    requires sound_block { SoundBlock leaf true block.now }
    requires from_le_to { (from ≤ to) × (to ≤ count_of block.now) × (at + element_size leaf * (to - from) ≤ d)
        × (d + length (bodies (range leaf block.now from to)) ≤ length out.old) }
    ensures { (result ≡ d + length (bodies (range leaf block.now from to)))
        × (out.new ≡ put_at out.old at (table leaf at d (range leaf block.now from to))) }
{
    let size = element_size(leaf);
    let mut w = at;
    let mut e = d;
    for i in from..to {
        e = copy_element(block, leaf, i, out, w, e);
        w += size;
    }
    e
}

// The end of those of the source's entries from `from` to `to` whose keys and values follow one another.
fn run_end(block: &[u8], leaf: bool, from: usize, to: usize) -> usize
    requires sound_block { SoundBlock leaf true block.now }
    requires from_lt_to { (from < to) × (to ≤ count_of block.now) }
    ensures { (from < result) × (result ≤ to) × (key_at leaf block.now from ≤ value_end leaf block.now (result - 1))
        × (bodies (range leaf block.now from result)
        ≡ take (value_end leaf block.now (result - 1) - key_at leaf block.now from) (drop (key_at leaf block.now from) block.now)) }
{
    let mut end = body_end(block, leaf, from);
    for i in from + 1..to {
        if key_at(block, leaf, i) != end {
            return i;
        }
        end = body_end(block, leaf, i);
    }
    to
}

// Puts the keys and values of the source's entries from `from` to `to`, a run at a time, and says where they end.
fn copy_bodies(block: &[u8], leaf: bool, from: usize, to: usize, out: &mut [u8], at: usize) -> usize
    requires sound_block { SoundBlock leaf true block.now }
    requires from_le_to { (from ≤ to) × (to ≤ count_of block.now) × (at + length (bodies (range leaf block.now from to)) ≤ length out.old) }
    ensures { (result ≡ at + length (bodies (range leaf block.now from to)))
        × (out.new ≡ put_at out.old at (bodies (range leaf block.now from to))) }
{
    let mut i = from;
    let mut w = at;
    // No count: each step goes on by a whole run.
    while i < to {
        let j = run_end(block, leaf, i, to);
        let start = key_at(block, leaf, i);
        let end = body_end(block, leaf, j - 1);
        copy(out, w, &block[start..end]);
        w += end - start;
        i = j;
    }
    w
}

// Puts the element of the new entry, if there is one, and says where its key and value are to end.
fn put_new(
    leaf: bool,
    plan: Plan,
    key: &[u8],
    value: &[u8],
    out: &mut [u8],
    at: usize,
    d: usize,
) -> usize
    requires { (at + element_size leaf * from_bool (is_some plan.tag) ≤ d) × (d + length (bodies (fresh plan key.now value.now)) ≤ length out.old) }
    ensures { (result ≡ d + length (bodies (fresh plan key.now value.now)))
        × (out.new ≡ put_at out.old at (table leaf at d (fresh plan key.now value.now))) }
{
    match plan.tag {
        Some(tag) => put_element(leaf, tag, key, value, out, at, d),
        None => d,
    }
}

// Puts the key and the value of the new entry, if there is one, and says where they end.
fn put_new_body(plan: Plan, key: &[u8], value: &[u8], out: &mut [u8], at: usize) -> usize
    requires { at + length (bodies (fresh plan key.now value.now)) ≤ length out.old }
    ensures { (result ≡ at + length (bodies (fresh plan key.now value.now)))
        × (out.new ≡ put_at out.old at (bodies (fresh plan key.now value.now))) }
{
    match plan.tag {
        Some(_) => put_body(key, value, out, at),
        None => at,
    }
}

// Puts the elements of the planned entries, whose keys and values are to stand from `d` on, and says where those are to end.
fn write_table(
    block: &[u8],
    leaf: bool,
    plan: Plan,
    key: &[u8],
    value: &[u8],
    out: &mut [u8],
    d: usize,
) -> usize
    requires sound_block { SoundBlock leaf true block.now }
    requires within { Within block.now plan }
    requires plan_bound { (element_at leaf (count_in plan) ≤ d)
        × (d + length (bodies (planned leaf block.now plan key.now value.now)) ≤ length out.old) }
    ensures { (result ≡ d + length (bodies (planned leaf block.now plan key.now value.now)))
        × (out.new ≡ put_at out.old 32 (table leaf 32 d (planned leaf block.now plan key.now value.now))) }
{
    let n = plan.stop - plan.first;
    let w = element_at(leaf, n);
    let x = element_at(leaf, n + usize::from(plan.tag.is_some()));
    let e = copy_table(block, leaf, plan.first, plan.stop, out, HEADER_SIZE, d);
    let f = put_new(leaf, plan, key, value, out, w, e);
    copy_table(block, leaf, plan.resume, plan.last, out, x, f)
}

// Puts the keys and values of the planned entries from `d` on.
fn write_bodies(
    block: &[u8],
    leaf: bool,
    plan: Plan,
    key: &[u8],
    value: &[u8],
    out: &mut [u8],
    d: usize,
)
    requires sound_block { SoundBlock leaf true block.now }
    requires within { Within block.now plan }
    requires value_in_bounds { d + length (bodies (planned leaf block.now plan key.now value.now)) ≤ length out.old }
    ensures { out.new ≡ put_at out.old d (bodies (planned leaf block.now plan key.now value.now)) }
{
    let e = copy_bodies(block, leaf, plan.first, plan.stop, out, d);
    let f = put_new_body(plan, key, value, out, e);
    copy_bodies(block, leaf, plan.resume, plan.last, out, f);
}

// The number of a page's type.
fn type_number(leaf: bool) -> u64
    ensures { result ≡ type_number leaf }
{
    u64::from(if leaf { TYPE_LEAF } else { TYPE_BRANCH })
}

// Puts the header at the start.
fn put_header(out: &mut [u8], leaf: bool, id: u64, count: usize, overflow: usize)
    requires { 32 ≤ length out.old }
    ensures { out.new ≡ put_at out.old 0 (header leaf id count overflow) }
{
    let t = type_number(leaf);
    put_four(out, 0, id, t, count as u64, overflow as u64);
}

// Writes the block of the planned entries, and says how long it is.
pub fn write(
    block: &[u8],
    leaf: bool,
    plan: Plan,
    key: &[u8],
    value: &[u8],
    id: u64,
    p: usize,
    out: &mut [u8],
) -> usize
    requires sound_block { SoundBlock leaf true block.now }
    requires within { Within block.now plan }
    requires p_nonzero { (0 < p) × (p ≤ 65536) × (block_size leaf (planned leaf block.now plan key.now value.now) p ≤ length out.old) }
    ensures { (result ≡ block_size leaf (planned leaf block.now plan key.now value.now) p)
        × (out.new ≡ pack leaf id (planned leaf block.now plan key.now value.now) p ++ drop result out.old) }
{
    let n = (plan.stop - plan.first) + usize::from(plan.tag.is_some()) + (plan.last - plan.resume);
    let d = element_at(leaf, n);
    let end = write_table(block, leaf, plan, key, value, out, d);
    write_bodies(block, leaf, plan, key, value, out, d);
    let pages = (end + 8).div_ceil(p);
    let size = pages * p;
    clear(out, end, size);
    put_header(out, leaf, id, n, pages - 1);
    size
}
