// The pieces of a split, each written as a packed block into its own stretch of the output.

#![tactic(auto)]

ghost use Rattle.std.specs.Prelude.{◌≡◌, true, ◌+◌, ◌<◌, ◌≤◌, min, leb, length};
ghost use Rattle.field.specs.Sizes.{size_allowed, count_allowed, block_inside};
ghost use Rattle.field.specs.Run.{put_at};
ghost use Rattle.page.specs.Layout.{count_of, is_leaf, entries_of};
ghost use Rattle.page.specs.PageRules.{SoundBlock};
ghost use Rattle.pack.specs.Pack.{node_size, block_size, pack};
ghost use Rattle.pack.specs.Plan.{range};
ghost use Rattle.cuts.specs.Split.{pieces_of};
ghost use Rattle.cuts.specs.Run.{piece_end, pieces_after, Ready};
ghost use Rattle.split.specs.Write.{span_of, spans_of, placed, bytes_in, pack_all, capped_spans, written_of, block_pieces, split_write_of, out_left};

use cuts::{add_capped, count_cuts, half, next_cut, run_end};
use field::Refusal;
use field::marks::{lowest_marked, mark_pages, no_marks};
use field::sizes::count_allowed;
use pack::edit::cut;
use page::Breach;
use page::layout::{count, is_leaf};
use page::rules::lent_check;
use size::{NODE_HEADER, NODE_LIMIT, entry_size, node_size};

// One past the most pages that an image has, and one past the bytes of the largest.
const PAGES_PAST: usize = 32769;

const BYTES_PAST: usize = 2147483649;

// How many bytes and pieces a split wrote.
#[derive(Clone, Copy)]
pub struct Written {
    pub bytes: usize,
    pub pieces: usize,
}

// Where the piece from entry `c` on ends.
fn piece_end(b: &[u8], leaf: bool, t: usize, end: usize, c: usize) -> usize
    requires sound_block { SoundBlock leaf true b.now }
    requires c_bound { (c ≤ count_of b.now) × (end ≤ count_of b.now) × (40 ≤ t) × (t ≤ 65536) }
    ensures { (result ≡ piece_end leaf t b.now end c) × (c ≤ result) × (result ≤ count_of b.now) }
{
    next_cut(b, leaf, t, end, c).unwrap_or(count(b))
}

// The node size of the entries from `i` to `j`, counted no further than one past the largest image.
fn piece_size(b: &[u8], leaf: bool, i: usize, j: usize) -> usize
    requires sound_block { SoundBlock leaf true b.now }
    requires j_bound { j ≤ count_of b.now }
    ensures { result ≡ min (node_size leaf (range leaf b.now i j)) 2147483649 }
{
    let mut sum = NODE_HEADER;
    for k in i..j {
        sum = add_capped(sum, entry_size(b, leaf, k), BYTES_PAST);
    }
    sum
}

// How many pages the block of the entries from `i` to `j` takes, counted no further than one past the most that an image has.
fn span(b: &[u8], leaf: bool, p: usize, i: usize, j: usize) -> usize
    requires sound_block { SoundBlock leaf true b.now }
    requires j_bound { (j ≤ count_of b.now) × (1024 ≤ p) × (p ≤ 65536) }
    ensures { result ≡ min (span_of leaf p (range leaf b.now i j)) 32769 }
{
    piece_size(b, leaf, i, j).div_ceil(p).min(PAGES_PAST)
}

// Whether the block of `k` pages from `q` on lies in the pages 2 to `n` - 1.
fn inside(n: usize, q: u64, k: usize) -> bool
    requires { n ≤ 32768 }
    ensures { result ≡ block_inside n q k }
{
    2 <= q && q <= n as u64 && k <= n - q as usize
}

// Whether the block of each piece lies in the image of `n` pages, and no two overlap.
fn all_placed(b: &[u8], leaf: bool, p: usize, t: usize, end: usize, n: usize, pages: &[u64]) -> bool
    requires ready { Ready leaf b.now p t end }
    requires n_bound { n ≤ 32768 }
    ensures { result ≡ placed n pages.now (capped_spans leaf p (pieces_after leaf t b.now end (length pages.now) 0)) }
{
    let mut marks = no_marks();
    let mut c = 0;
    for &page in pages {
        let e = piece_end(b, leaf, t, end, c);
        let k = span(b, leaf, p, c, e);
        if !inside(n, page, k) {
            return false;
        }
        let q = page as usize;
        if lowest_marked(&marks, q, q + k) < q + k {
            return false;
        }
        mark_pages(&mut marks, q, q + k);
        c = e;
    }
    true
}

// Whether the blocks of so many pieces take no more than `room` bytes.
fn fits(b: &[u8], leaf: bool, p: usize, t: usize, end: usize, pieces: usize, room: usize) -> bool
    requires { Ready leaf b.now p t end }
    ensures { result ≡ leb (bytes_in p (capped_spans leaf p (pieces_after leaf t b.now end pieces 0))) room }
{
    let mut rest = room;
    let mut c = 0;
    for _ in 0..pieces {
        let e = piece_end(b, leaf, t, end, c);
        let size = span(b, leaf, p, c, e) * p;
        if rest < size {
            return false;
        }
        rest -= size;
        c = e;
    }
    true
}

// Writes the block of the entries from `c` to `e` from byte `at` on, and says where it ends.
fn write_piece(
    b: &[u8],
    leaf: bool,
    p: usize,
    c: usize,
    e: usize,
    id: u64,
    out: &mut [u8],
    at: usize,
) -> usize
    requires sound_block { SoundBlock leaf true b.now }
    requires c_le_e { (c ≤ e) × (e ≤ count_of b.now) × (0 < p) × (p ≤ 65536) × (at + block_size leaf (range leaf b.now c e) p ≤ length out.old) }
    ensures { (result ≡ at + block_size leaf (range leaf b.now c e) p)
        × (out.new ≡ put_at out.old at (pack leaf id (range leaf b.now c e) p)) }
{
    let size = cut(b, leaf, c, e, id, p, &mut out[at..]);
    at + size
}

// Writes each piece's block after the one before it, and says where the last ends.
fn write_pieces(
    b: &[u8],
    leaf: bool,
    p: usize,
    t: usize,
    end: usize,
    pages: &[u64],
    out: &mut [u8],
) -> usize
    requires ready { Ready leaf b.now p t end }
    requires pages_in_bounds { bytes_in p (spans_of leaf p (pieces_after leaf t b.now end (length pages.now) 0)) ≤ length out.old }
    ensures { (result ≡ bytes_in p (spans_of leaf p (pieces_after leaf t b.now end (length pages.now) 0)))
        × (out.new ≡ put_at out.old 0 (pack_all leaf p pages.now (pieces_after leaf t b.now end (length pages.now) 0))) }
{
    let mut c = 0;
    let mut at = 0;
    for &id in pages {
        let e = piece_end(b, leaf, t, end, c);
        at = write_piece(b, leaf, p, c, e, id, out, at);
        c = e;
    }
    at
}

// The pieces of a sound block into the output, with the lent list of their pages, and how many bytes and pieces they are.
fn write_sound(
    b: &[u8],
    leaf: bool,
    p: usize,
    n: usize,
    pages: &[u64],
    out: &mut [u8],
) -> Result<Written, Breach>
    requires sound_block { SoundBlock leaf true b.now }
    requires p_value { (size_allowed p ≡ true) × (count_allowed n ≡ true) }
    ensures { (result ≡ written_of leaf p n (node_size leaf (entries_of leaf b.now)) (pieces_of leaf p (entries_of leaf b.now)) pages.now (length out.old))
        × (out.new ≡ out_left result (pack_all leaf p pages.now (pieces_of leaf p (entries_of leaf b.now))) out.old) }
{
    let size = node_size(b, leaf);
    let t = half(p) as usize;
    let end = run_end(b, leaf, p, size);
    let pieces = count_cuts(b, leaf, t, end) + 1;
    if pages.len() != pieces {
        return Err(Breach::from(Refusal::Argument));
    }
    if !all_placed(b, leaf, p, t, end, n, pages) {
        return Err(Breach::from(Refusal::Argument));
    }
    if NODE_LIMIT < size {
        return Err(Breach::from(Refusal::NodeTooLarge));
    }
    if !fits(b, leaf, p, t, end, pieces, out.len()) {
        return Err(Breach::from(Refusal::OutputShort));
    }
    let bytes = write_pieces(b, leaf, p, t, end, pages, out);
    Ok(Written { bytes, pieces })
}

// The pieces of a lent block into the output, each with its page of the lent list, in an image of `n` pages.
pub fn split_write(
    b: &[u8],
    p: usize,
    n: usize,
    pages: &[u64],
    out: &mut [u8],
) -> Result<Written, Breach>
    ensures { (result ≡ split_write_of p n b.now pages.now (length out.old))
        × (out.new ≡ out_left result (pack_all (is_leaf b.now) p pages.now (block_pieces p b.now)) out.old) }
{
    if !count_allowed(n) {
        return Err(Breach::from(Refusal::Geometry));
    }
    lent_check(b, p)?;
    write_sound(b, is_leaf(b), p, n, pages, out)
}
