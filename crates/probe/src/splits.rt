// The split of a node, as C functions.
ghost use Rattle.std.specs.Prelude.{◌≡◌, length};
ghost use Rattle.answer.specs.Answer.{told_number, told_answer, lent_with};
ghost use Rattle.page.specs.Layout.{is_leaf};
ghost use Rattle.cuts.specs.Numbers.{parted_fields};
ghost use Rattle.split.specs.Numbers.{written_fields};
ghost use Rattle.cuts.specs.Parted.{split_of, block_cuts, list_left};
ghost use Rattle.split.specs.Write.{split_write_of, pack_all, block_pieces, out_left};

use answer::give;
use cuts::split;
use field::Refusal;
use page::Breach;
use split::{Written, split_write};

// How many fields the answer of `split` has, and that of `split_write`.
const PARTED_FIELDS: usize = 4;

const WRITTEN_FIELDS: usize = 5;

// The number of `split`'s answer, with its fields.
fn tell_parted(answer: &mut [u8], parted: Result<usize, Breach>) -> u64
    ensures { (result ≡ told_number (parted_fields parted) answer.old)
        × (answer.new ≡ told_answer (parted_fields parted) answer.old) }
{
    match parted {
        Ok(made) => give(answer, 0, &[made as u64, 0, 0, 0]),
        Err(breach) => {
            let values = [0, 0, breach.element as u64, breach.common as u64];
            give(answer, u64::from(breach.refusal), &values)
        }
    }
}

// The number of `split_write`'s answer, with its fields.
fn tell_written(answer: &mut [u8], written: Result<Written, Breach>) -> u64
    ensures { (result ≡ told_number (written_fields written) answer.old)
        × (answer.new ≡ told_answer (written_fields written) answer.old) }
{
    match written {
        Ok(written) => {
            let values = [written.bytes as u64, written.pieces as u64, 0, 0, 0];
            give(answer, 0, &values)
        }
        Err(breach) => {
            let values = [0, 0, 0, breach.element as u64, breach.common as u64];
            give(answer, u64::from(breach.refusal), &values)
        }
    }
}

// The number of `split`'s answer, whose fields stand in `answer`: cuts made, page, element, common.
#[unsafe(no_mangle)]
pub extern "C" fn tyvarmos_split(block: &[u8], p: usize, cuts: &mut [u64], answer: &mut [u8]) -> u64
    ensures { (result ≡ told_number (parted_fields (split_of p block.now (length cuts.old))) answer.old)
        × (answer.new ≡ told_answer (parted_fields (split_of p block.now (length cuts.old))) answer.old)
        × (cuts.new ≡ lent_with 4 answer.old cuts.old
        (list_left (split_of p block.now (length cuts.old)) (block_cuts p block.now) cuts.old)) }
{
    if answer.len() / 8 < PARTED_FIELDS {
        return u64::from(Refusal::Geometry);
    }
    let told = split(block, p, cuts);
    tell_parted(answer, told)
}

// The number of `split_write`'s answer, whose fields stand in `answer`: bytes written, pieces, page, element, common.
#[unsafe(no_mangle)]
pub extern "C" fn tyvarmos_split_write(
    block: &[u8],
    p: usize,
    n: usize,
    pages: &[u64],
    out: &mut [u8],
    answer: &mut [u8],
) -> u64
    ensures { (result ≡ told_number (written_fields (split_write_of p n block.now pages.now (length out.old))) answer.old)
        × (answer.new ≡ told_answer (written_fields (split_write_of p n block.now pages.now (length out.old))) answer.old)
        × (out.new ≡ lent_with 5 answer.old out.old
        (out_left (split_write_of p n block.now pages.now (length out.old))
        (pack_all (is_leaf block.now) p pages.now (block_pieces p block.now)) out.old)) }
{
    if answer.len() / 8 < WRITTEN_FIELDS {
        return u64::from(Refusal::Geometry);
    }
    let told = split_write(block, p, n, pages, out);
    tell_written(answer, told)
}
