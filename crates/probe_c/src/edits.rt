// The size of a node and its edits.
ghost use Rattle.std.specs.Prelude.{◌≡◌, true, false};
ghost use Rattle.answer.specs.Answer.{told_number, told_answer, lent_with};
ghost use Rattle.page.specs.Layout.{id_of};
ghost use Rattle.node.specs.Numbers.{edited_fields, deleted_fields, sized_fields};
ghost use Rattle.node.specs.Measure.{size_of, needs_merging_of};
ghost use Rattle.node.specs.Edit.{output, new_leaf_of, new_branch_of, insert_of, delete_of, deleted_answer, insert_branch_of};
ghost use Rattle.node.specs.Edit.{answer as edited_of};
ghost use Rattle.probe.specs.Probe.{original_of};

// The number of the answers of `size` and `needs_merging`, whose fields stand in `answer`: size, pages needed, merging wanted, page, element, common.
#[unsafe(no_mangle)]
pub extern "C" fn tyvarmos_size(block: &[u8], p: usize, answer: &mut [u8]) -> u64
    ensures { (result ≡ told_number (sized_fields (size_of p block.now) (needs_merging_of p block.now)) answer.old)
        × (answer.new ≡ told_answer (sized_fields (size_of p block.now) (needs_merging_of p block.now)) answer.old) }
{
    probe::edits::tyvarmos_size(block, p, answer)
}

// The number of `new_leaf`'s answer, whose fields stand in `answer`: bytes written, page, element, common.
#[unsafe(no_mangle)]
pub extern "C" fn tyvarmos_new_leaf(p: usize, id: u64, out: &mut [u8], answer: &mut [u8]) -> u64
    ensures { (result ≡ told_number (edited_fields (edited_of true p (new_leaf_of p out.old))) answer.old)
        × (answer.new ≡ told_answer (edited_fields (edited_of true p (new_leaf_of p out.old))) answer.old)
        × (out.new ≡ lent_with 4 answer.old out.old (output true id p out.old (new_leaf_of p out.old))) }
{
    probe::edits::tyvarmos_new_leaf(p, id, out, answer)
}

// The number of `new_branch`'s answer, whose fields stand in `answer`: bytes written, page, element, common.
#[unsafe(no_mangle)]
pub extern "C" fn tyvarmos_new_branch(
    p: usize,
    id: u64,
    key: &[u8],
    child: u64,
    out: &mut [u8],
    answer: &mut [u8],
) -> u64
    ensures { (result ≡ told_number (edited_fields (edited_of false p (new_branch_of p key.now child out.old))) answer.old)
        × (answer.new ≡ told_answer (edited_fields (edited_of false p (new_branch_of p key.now child out.old))) answer.old)
        × (out.new ≡ lent_with 4 answer.old out.old (output false id p out.old (new_branch_of p key.now child out.old))) }
{
    probe::edits::tyvarmos_new_branch(p, id, key, child, out, answer)
}

// The number of `insert_data`'s answer, whose fields stand in `answer`: bytes written, page, element, common.
#[unsafe(no_mangle)]
pub extern "C" fn tyvarmos_insert(
    block: &[u8],
    p: usize,
    key: &[u8],
    kind: u64,
    value: &[u8],
    out: &mut [u8],
    answer: &mut [u8],
) -> u64
    ensures { (result ≡ told_number (edited_fields (edited_of true p (insert_of p block.now key.now kind value.now out.old))) answer.old)
        × (answer.new ≡ told_answer (edited_fields (edited_of true p (insert_of p block.now key.now kind value.now out.old))) answer.old)
        × (out.new ≡ lent_with 4 answer.old out.old
        (output true (id_of block.now) p out.old (insert_of p block.now key.now kind value.now out.old))) }
{
    probe::edits::tyvarmos_insert(block, p, key, kind, value, out, answer)
}

// The number of `delete`'s answer, whose fields stand in `answer`: bytes written, then the removed entry's kind, key place, key length,
// value place and value length in the lent block, then page, element, common.
#[unsafe(no_mangle)]
pub extern "C" fn tyvarmos_delete(
    block: &[u8],
    p: usize,
    index: usize,
    out: &mut [u8],
    answer: &mut [u8],
) -> u64
    ensures { (result ≡ told_number (deleted_fields (deleted_answer p block.now index (delete_of p block.now index out.old))) answer.old)
        × (answer.new ≡ told_answer (deleted_fields (deleted_answer p block.now index (delete_of p block.now index out.old))) answer.old)
        × (out.new ≡ lent_with 9 answer.old out.old
        (output true (id_of block.now) p out.old (delete_of p block.now index out.old))) }
{
    probe::edits::tyvarmos_delete(block, p, index, out, answer)
}

// The number of `insert_branch`'s answer, whose fields stand in `answer`: bytes written, page, element, common. It has an original key unless `has` is 0.
#[unsafe(no_mangle)]
pub extern "C" fn tyvarmos_insert_branch(
    block: &[u8],
    p: usize,
    has: u64,
    original: &[u8],
    key: &[u8],
    child: u64,
    out: &mut [u8],
    answer: &mut [u8],
) -> u64
    ensures { (result ≡ told_number (edited_fields (edited_of false p
        (insert_branch_of p block.now (original_of has original.now) key.now child out.old))) answer.old)
        × (answer.new ≡ told_answer (edited_fields (edited_of false p
        (insert_branch_of p block.now (original_of has original.now) key.now child out.old))) answer.old)
        × (out.new ≡ lent_with 4 answer.old out.old (output false (id_of block.now) p out.old
        (insert_branch_of p block.now (original_of has original.now) key.now child out.old))) }
{
    probe::edits::tyvarmos_insert_branch(block, p, has, original, key, child, out, answer)
}
