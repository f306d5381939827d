// The search of a block.
ghost use Rattle.std.specs.Prelude.{◌≡◌};
ghost use Rattle.answer.specs.Answer.{told_number, told_answer};
ghost use Rattle.page.specs.Numbers.{indexed_fields, child_fields, held_fields};
ghost use Rattle.page.specs.Search.{index_of, index_page_of, held_of};

// The number of `index`'s answer, whose fields stand in `answer`: index, found, page, element, common.
#[unsafe(no_mangle)]
pub extern "C" fn tyvarmos_index(block: &[u8], p: usize, key: &[u8], answer: &mut [u8]) -> u64
    ensures { (result ≡ told_number (indexed_fields (index_of p block.now key.now)) answer.old)
        × (answer.new ≡ told_answer (indexed_fields (index_of p block.now key.now)) answer.old) }
{
    probe::search::tyvarmos_index(block, p, key, answer)
}

// The number of `index_page`'s answer, whose fields stand in `answer`: page number, page, element, common.
#[unsafe(no_mangle)]
pub extern "C" fn tyvarmos_index_page(
    block: &[u8],
    p: usize,
    index: usize,
    answer: &mut [u8],
) -> u64
    ensures { (result ≡ told_number (child_fields (index_page_of p block.now index)) answer.old)
        × (answer.new ≡ told_answer (child_fields (index_page_of p block.now index)) answer.old) }
{
    probe::search::tyvarmos_index_page(block, p, index, answer)
}

// The number of `entry`'s answer, whose fields stand in `answer`: held, then the entry's kind, key place, key length, value place and value length
// in the lent block, then page, element, common.
#[unsafe(no_mangle)]
pub extern "C" fn tyvarmos_entry(block: &[u8], p: usize, index: usize, answer: &mut [u8]) -> u64
    ensures { (result ≡ told_number (held_fields (held_of p block.now index)) answer.old)
        × (answer.new ≡ told_answer (held_fields (held_of p block.now index)) answer.old) }
{
    probe::search::tyvarmos_entry(block, p, index, answer)
}
