// The split of a node.
ghost use Rattle.std.specs.Prelude.{◌≡◌, length};
ghost use Rattle.answer.specs.Answer.{told_number, told_answer, lent_with};
ghost use Rattle.page.specs.Layout.{is_leaf};
ghost use Rattle.cuts.specs.Numbers.{parted_fields};
ghost use Rattle.split.specs.Numbers.{written_fields};
ghost use Rattle.cuts.specs.Parted.{split_of, block_cuts, list_left};
ghost use Rattle.split.specs.Write.{split_write_of, pack_all, block_pieces, out_left};

// The number of `split`'s answer, whose fields stand in `answer`: cuts made, page, element, common.
#[unsafe(no_mangle)]
pub extern "C" fn tyvarmos_split(block: &[u8], p: usize, cuts: &mut [u64], answer: &mut [u8]) -> u64
    ensures { (result ≡ told_number (parted_fields (split_of p block.now (length cuts.old))) answer.old)
        × (answer.new ≡ told_answer (parted_fields (split_of p block.now (length cuts.old))) answer.old)
        × (cuts.new ≡ lent_with 4 answer.old cuts.old
        (list_left (split_of p block.now (length cuts.old)) (block_cuts p block.now) cuts.old)) }
{
    probe::splits::tyvarmos_split(block, p, cuts, answer)
}

// The number of `split_write`'s answer, whose fields stand in `answer`: bytes written, pieces, page, element, common.
#[unsafe(no_mangle)]
pub extern "C" fn tyvarmos_split_write(
    block: &[u8],
    p: usize,
    n: usize,
    pages: &[u64],
    out: &mut [u8],
    answer: &mut [u8],
) -> u64
    ensures { (result ≡ told_number (written_fields (split_write_of p n block.now pages.now (length out.old))) answer.old)
        × (answer.new ≡ told_answer (written_fields (split_write_of p n block.now pages.now (length out.old))) answer.old)
        × (out.new ≡ lent_with 5 answer.old out.old
        (out_left (split_write_of p n block.now pages.now (length out.old))
        (pack_all (is_leaf block.now) p pages.now (block_pieces p block.now)) out.old)) }
{
    probe::splits::tyvarmos_split_write(block, p, n, pages, out, answer)
}
