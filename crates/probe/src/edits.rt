// The size of a node and its edits, as C functions.
ghost use Rattle.std.specs.Prelude.{◌≡◌, true, false, min};
ghost use Rattle.answer.specs.Answer.{told_number, told_answer, lent_with};
ghost use Rattle.page.specs.Layout.{id_of};
ghost use Rattle.node.specs.Numbers.{edited_fields, deleted_fields, unsized_fields, sized_fields};
ghost use Rattle.node.specs.Measure.{size_of, needs_merging_of};
ghost use Rattle.node.specs.Edit.{output, new_leaf_of, new_branch_of, insert_of, delete_of, deleted_answer, insert_branch_of};
ghost use Rattle.node.specs.Edit.{answer as edited_of};
ghost use Rattle.probe.specs.Probe.{DeletedOrdered, original_of};

use answer::give;
use branch::insert_branch;
use field::Refusal;
use node::edit::{delete, insert_data, new_branch, new_leaf};
use node::measure::{needs_merging, size};
use node::{Measure, Removed};
use page::Breach;

// How many fields an edit's answer has, and that of `delete`.
const EDITED_FIELDS: usize = 4;

const DELETED_FIELDS: usize = 9;

// The number of a refused size, whose fields are 0 but the element and the common beginning.
fn tell_unsized(answer: &mut [u8], breach: Breach) -> u64
    ensures { (result ≡ told_number (unsized_fields breach) answer.old)
        × (answer.new ≡ told_answer (unsized_fields breach) answer.old) }
{
    let values = [0, 0, 0, 0, breach.element as u64, breach.common as u64];
    give(answer, u64::from(breach.refusal), &values)
}

// The number of the answers of `size` and `needs_merging`, with their fields.
fn tell_sized(
    answer: &mut [u8],
    measure: Result<Measure, Breach>,
    merging: Result<bool, Breach>,
) -> u64
    ensures { (result ≡ told_number (sized_fields measure merging) answer.old)
        × (answer.new ≡ told_answer (sized_fields measure merging) answer.old) }
{
    match measure {
        Err(breach) => tell_unsized(answer, breach),
        Ok(size) => match merging {
            Err(breach) => tell_unsized(answer, breach),
            Ok(wanted) => {
                let values = [
                    size.bytes as u64,
                    size.pages as u64,
                    u64::from(wanted),
                    0,
                    0,
                    0,
                ];
                give(answer, 0, &values)
            }
        },
    }
}

// The number of an edit's answer, with its fields.
fn tell_edited(answer: &mut [u8], edited: Result<usize, Breach>) -> u64
    ensures { (result ≡ told_number (edited_fields edited) answer.old)
        × (answer.new ≡ told_answer (edited_fields edited) answer.old) }
{
    match edited {
        Ok(bytes) => {
            let values = [bytes as u64, 0, 0, 0];
            give(answer, 0, &values)
        }
        Err(breach) => {
            let values = [0, 0, breach.element as u64, breach.common as u64];
            give(answer, u64::from(breach.refusal), &values)
        }
    }
}

// The number of `delete`'s answer, with its fields.
fn tell_deleted(answer: &mut [u8], deleted: Result<Removed, Breach>) -> u64
    requires { DeletedOrdered deleted }
    ensures { (result ≡ told_number (deleted_fields deleted) answer.old)
        × (answer.new ≡ told_answer (deleted_fields deleted) answer.old) }
{
    match deleted {
        Ok(removed) => {
            let e = removed.leaf;
            let key_length = (e.value - e.key) as u64;
            let value_length = (e.end - e.value) as u64;
            let values = [
                removed.bytes as u64,
                u64::from(e.kind),
                e.key as u64,
                key_length,
                e.value as u64,
                value_length,
                0,
                0,
                0,
            ];
            give(answer, 0, &values)
        }
        Err(breach) => {
            let values = [
                0,
                0,
                0,
                0,
                0,
                0,
                0,
                breach.element as u64,
                breach.common as u64,
            ];
            give(answer, u64::from(breach.refusal), &values)
        }
    }
}

// The number of the answers of `size` and `needs_merging`, whose fields stand in `answer`: size, pages needed, merging wanted, page, element, common.
#[unsafe(no_mangle)]
pub extern "C" fn tyvarmos_size(block: &[u8], p: usize, answer: &mut [u8]) -> u64
    ensures { (result ≡ told_number (sized_fields (size_of p block.now) (needs_merging_of p block.now)) answer.old)
        × (answer.new ≡ told_answer (sized_fields (size_of p block.now) (needs_merging_of p block.now)) answer.old) }
{
    let measure = size(block, p);
    let merging = needs_merging(block, p);
    tell_sized(answer, measure, merging)
}

// The number of `new_leaf`'s answer, whose fields stand in `answer`: bytes written, page, element, common.
#[unsafe(no_mangle)]
pub extern "C" fn tyvarmos_new_leaf(p: usize, id: u64, out: &mut [u8], answer: &mut [u8]) -> u64
    ensures { (result ≡ told_number (edited_fields (edited_of true p (new_leaf_of p out.old))) answer.old)
        × (answer.new ≡ told_answer (edited_fields (edited_of true p (new_leaf_of p out.old))) answer.old)
        × (out.new ≡ lent_with 4 answer.old out.old (output true id p out.old (new_leaf_of p out.old))) }
{
    if answer.len() / 8 < EDITED_FIELDS {
        return u64::from(Refusal::Geometry);
    }
    let told = new_leaf(p, id, out);
    tell_edited(answer, told)
}

// The number of `new_branch`'s answer, whose fields stand in `answer`: bytes written, page, element, common.
#[unsafe(no_mangle)]
pub extern "C" fn tyvarmos_new_branch(
    p: usize,
    id: u64,
    key: &[u8],
    child: u64,
    out: &mut [u8],
    answer: &mut [u8],
) -> u64
    ensures { (result ≡ told_number (edited_fields (edited_of false p (new_branch_of p key.now child out.old))) answer.old)
        × (answer.new ≡ told_answer (edited_fields (edited_of false p (new_branch_of p key.now child out.old))) answer.old)
        × (out.new ≡ lent_with 4 answer.old out.old (output false id p out.old (new_branch_of p key.now child out.old))) }
{
    if answer.len() / 8 < EDITED_FIELDS {
        return u64::from(Refusal::Geometry);
    }
    let told = new_branch(p, id, key, child, out);
    tell_edited(answer, told)
}

// A kind as a byte: one that fits none is the greatest, and so as bad as any above 1.
fn kind_byte(kind: u64) -> u8
    ensures { result ≡ min kind 255 }
{
    kind.min(255) as u8
}

// The number of `insert_data`'s answer, whose fields stand in `answer`: bytes written, page, element, common.
#[unsafe(no_mangle)]
pub extern "C" fn tyvarmos_insert(
    block: &[u8],
    p: usize,
    key: &[u8],
    kind: u64,
    value: &[u8],
    out: &mut [u8],
    answer: &mut [u8],
) -> u64
    ensures { (result ≡ told_number (edited_fields (edited_of true p (insert_of p block.now key.now kind value.now out.old))) answer.old)
        × (answer.new ≡ told_answer (edited_fields (edited_of true p (insert_of p block.now key.now kind value.now out.old))) answer.old)
        × (out.new ≡ lent_with 4 answer.old out.old
        (output true (id_of block.now) p out.old (insert_of p block.now key.now kind value.now out.old))) }
{
    if answer.len() / 8 < EDITED_FIELDS {
        return u64::from(Refusal::Geometry);
    }
    let told = insert_data(block, p, key, kind_byte(kind), value, out);
    tell_edited(answer, told)
}

// The number of `delete`'s answer, whose fields stand in `answer`: bytes written, then the removed entry's kind, key place, key length,
// value place and value length in the lent block, then page, element, common.
#[unsafe(no_mangle)]
pub extern "C" fn tyvarmos_delete(
    block: &[u8],
    p: usize,
    index: usize,
    out: &mut [u8],
    answer: &mut [u8],
) -> u64
    ensures { (result ≡ told_number (deleted_fields (deleted_answer p block.now index (delete_of p block.now index out.old))) answer.old)
        × (answer.new ≡ told_answer (deleted_fields (deleted_answer p block.now index (delete_of p block.now index out.old))) answer.old)
        × (out.new ≡ lent_with 9 answer.old out.old
        (output true (id_of block.now) p out.old (delete_of p block.now index out.old))) }
{
    if answer.len() / 8 < DELETED_FIELDS {
        return u64::from(Refusal::Geometry);
    }
    let told = delete(block, p, index, out);
    tell_deleted(answer, told)
}

// The number of `insert_branch`'s answer, whose fields stand in `answer`: bytes written, page, element, common. It has an original key unless `has` is 0.
#[unsafe(no_mangle)]
pub extern "C" fn tyvarmos_insert_branch(
    block: &[u8],
    p: usize,
    has: u64,
    original: &[u8],
    key: &[u8],
    child: u64,
    out: &mut [u8],
    answer: &mut [u8],
) -> u64
    ensures { (result ≡ told_number (edited_fields (edited_of false p
        (insert_branch_of p block.now (original_of has original.now) key.now child out.old))) answer.old)
        × (answer.new ≡ told_answer (edited_fields (edited_of false p
        (insert_branch_of p block.now (original_of has original.now) key.now child out.old))) answer.old)
        × (out.new ≡ lent_with 4 answer.old out.old (output false (id_of block.now) p out.old
        (insert_branch_of p block.now (original_of has original.now) key.now child out.old))) }
{
    if answer.len() / 8 < EDITED_FIELDS {
        return u64::from(Refusal::Geometry);
    }
    let original = (has != 0).then_some(original);
    let told = insert_branch(block, p, original, key, child, out);
    tell_edited(answer, told)
}
