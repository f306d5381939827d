// The search of a block, as C functions.
ghost use Rattle.std.specs.Prelude.{◌≡◌};
ghost use Rattle.answer.specs.Answer.{told_number, told_answer};
ghost use Rattle.page.specs.Numbers.{indexed_fields, child_fields, held_fields};
ghost use Rattle.page.specs.Search.{index_of, index_page_of, held_of};
ghost use Rattle.probe.specs.Probe.{HeldOrdered};

use answer::give;
use page::search::{entry, index, index_page};
use page::{Breach, Leaf};

// The number of `index`'s answer, whose fields stand in `answer`: index, found, page, element, common.
#[unsafe(no_mangle)]
pub extern "C" fn tyvarmos_index(block: &[u8], p: usize, key: &[u8], answer: &mut [u8]) -> u64
    ensures { (result ≡ told_number (indexed_fields (index_of p block.now key.now)) answer.old)
        × (answer.new ≡ told_answer (indexed_fields (index_of p block.now key.now)) answer.old) }
{
    match index(block, p, key) {
        Ok(place) => {
            let values = [place.at as u64, u64::from(place.found), 0, 0, 0];
            give(answer, 0, &values)
        }
        Err(breach) => {
            let values = [0, 0, 0, breach.element as u64, breach.common as u64];
            give(answer, u64::from(breach.refusal), &values)
        }
    }
}

// The number of `index_page`'s answer, whose fields stand in `answer`: page number, page, element, common.
#[unsafe(no_mangle)]
pub extern "C" fn tyvarmos_index_page(
    block: &[u8],
    p: usize,
    index: usize,
    answer: &mut [u8],
) -> u64
    ensures { (result ≡ told_number (child_fields (index_page_of p block.now index)) answer.old)
        × (answer.new ≡ told_answer (child_fields (index_page_of p block.now index)) answer.old) }
{
    match index_page(block, p, index) {
        Ok(page) => {
            let values = [page as u64, 0, 0, 0];
            give(answer, 0, &values)
        }
        Err(breach) => {
            let values = [0, 0, breach.element as u64, breach.common as u64];
            give(answer, u64::from(breach.refusal), &values)
        }
    }
}

// The number of `entry`'s answer, with its fields.
fn tell_held(answer: &mut [u8], held: Result<Option<Leaf>, Breach>) -> u64
    requires { HeldOrdered held }
    ensures { (result ≡ told_number (held_fields held) answer.old)
        × (answer.new ≡ told_answer (held_fields held) answer.old) }
{
    match held {
        Ok(Some(e)) => {
            let key_length = (e.value - e.key) as u64;
            let value_length = (e.end - e.value) as u64;
            let values = [
                1,
                u64::from(e.kind),
                e.key as u64,
                key_length,
                e.value as u64,
                value_length,
                0,
                0,
                0,
            ];
            give(answer, 0, &values)
        }
        Ok(None) => {
            let values = [0; 9];
            give(answer, 0, &values)
        }
        Err(breach) => {
            let values = [
                0,
                0,
                0,
                0,
                0,
                0,
                0,
                breach.element as u64,
                breach.common as u64,
            ];
            give(answer, u64::from(breach.refusal), &values)
        }
    }
}

// The number of `entry`'s answer, whose fields stand in `answer`: held, then the entry's kind, key place, key length, value place and value length
// in the lent block, then page, element, common.
#[unsafe(no_mangle)]
pub extern "C" fn tyvarmos_entry(block: &[u8], p: usize, index: usize, answer: &mut [u8]) -> u64
    ensures { (result ≡ told_number (held_fields (held_of p block.now index)) answer.old)
        × (answer.new ≡ told_answer (held_fields (held_of p block.now index)) answer.old) }
{
    let held = entry(block, p, index);
    tell_held(answer, held)
}
