// The four calls of the shard server, as C functions over numbers and byte slices, which `shard_c` exports.

#![tactic(auto)]

ghost use Rattle.std.specs.Prelude.{◌≡◌};
ghost use Rattle.lookup.specs.Lookup.{lookup_of};
ghost use Rattle.quick.specs.Quick.{quick_of};
ghost use Rattle.judge.specs.Judge.{judge_of};
ghost use Rattle.newest.specs.Newest.{newest_of, newest_fields};
ghost use Rattle.answer.specs.Answer.{told_number, told_answer};
ghost use Rattle.shard.specs.Answer.{looked_fields, judged_fields};

use answer::give;
use judge::judge;
use lookup::lookup;
use newest::{Newest, newest_meta};
use quick::quick;
use view::{Fault, Value};

// Gives a lookup's answer: its number, and its fields in `answer`: found, kind, place, length, page, element, common.
fn tell(looked: Result<Option<Value>, Fault>, answer: &mut [u8]) -> u64
    ensures { (result ≡ told_number (looked_fields looked) answer.old)
        × (answer.new ≡ told_answer (looked_fields looked) answer.old) }
{
    match looked {
        Ok(Some(v)) => {
            let kind = u64::from(v.kind);
            let values = [1, kind, v.place as u64, v.length as u64, 0, 0, 0];
            give(answer, 0, &values)
        }
        Ok(None) => {
            let values = [0; 7];
            give(answer, 0, &values)
        }
        Err(f) => {
            let values = [0, 0, 0, 0, f.page as u64, f.element as u64, f.common as u64];
            give(answer, u64::from(f.refusal), &values)
        }
    }
}

// The number of a lookup's answer, whose fields stand in `answer` as `tell` has them.
#[unsafe(no_mangle)]
pub extern "C" fn tyvarmos_lookup(
    image: &[u8],
    p: usize,
    n: usize,
    root: usize,
    key: &[u8],
    answer: &mut [u8],
) -> u64
    ensures { (result ≡ told_number (looked_fields (lookup_of image.now p n root key.now)) answer.old)
        × (answer.new ≡ told_answer (looked_fields (lookup_of image.now p n root key.now)) answer.old) }
{
    tell(lookup(image, p, n, root, key), answer)
}

// The same of login's lookup, which looks at the header of each page and at the elements that halving comes by.
#[unsafe(no_mangle)]
pub extern "C" fn tyvarmos_quick(
    image: &[u8],
    p: usize,
    n: usize,
    root: usize,
    key: &[u8],
    answer: &mut [u8],
) -> u64
    ensures { (result ≡ told_number (looked_fields (quick_of image.now p n root key.now)) answer.old)
        × (answer.new ≡ told_answer (looked_fields (quick_of image.now p n root key.now)) answer.old) }
{
    tell(quick(image, p, n, root, key), answer)
}

// The number of the judge's answer, whose fields stand in `answer`: entries, pages, page, element, common.
#[unsafe(no_mangle)]
pub extern "C" fn tyvarmos_judge(
    image: &[u8],
    p: usize,
    n: usize,
    root: usize,
    freelist: usize,
    answer: &mut [u8],
) -> u64
    ensures { (result ≡ told_number (judged_fields (judge_of image.now p n root freelist)) answer.old)
        × (answer.new ≡ told_answer (judged_fields (judge_of image.now p n root freelist)) answer.old) }
{
    match judge(image, p, n, root, freelist) {
        Ok(counts) => {
            let values = [counts.entries as u64, counts.pages as u64, 0, 0, 0];
            give(answer, 0, &values)
        }
        Err(f) => {
            let values = [0, 0, f.page as u64, f.element as u64, f.common as u64];
            give(answer, u64::from(f.refusal), &values)
        }
    }
}

// The number of the newest meta's answer, whose fields stand in `answer`: the page it was taken from, pagesize, root_page, next_int, num_pages, freelist_page, tx_id.
#[unsafe(no_mangle)]
pub extern "C" fn tyvarmos_meta(image: &[u8], p: usize, answer: &mut [u8]) -> u64
    ensures { (result ≡ told_number (newest_fields (newest_of image.now p)) answer.old)
        × (answer.new ≡ told_answer (newest_fields (newest_of image.now p)) answer.old) }
{
    match newest_meta(image, p) {
        Ok(Newest { page, meta }) => {
            let values = [
                page as u64,
                meta.pagesize,
                meta.root_page,
                meta.next_int,
                meta.num_pages,
                meta.freelist_page,
                meta.tx_id,
            ];
            give(answer, 0, &values)
        }
        Err(refusal) => give(answer, u64::from(refusal), &[0; 7]),
    }
}
