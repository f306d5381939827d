// The four calls of the shard server as C has them, in libshard.a: each is the function of the same name in `shard`.

#![tactic(auto)]

ghost use Rattle.std.specs.Prelude.{◌≡◌};
ghost use Rattle.lookup.specs.Lookup.{lookup_of};
ghost use Rattle.quick.specs.Quick.{quick_of};
ghost use Rattle.judge.specs.Judge.{judge_of};
ghost use Rattle.newest.specs.Newest.{newest_of, newest_fields};
ghost use Rattle.answer.specs.Answer.{told_number, told_answer};
ghost use Rattle.shard.specs.Answer.{looked_fields, judged_fields};

// The number of a lookup's answer, whose fields stand in `answer`: found, kind, place, length, page, element, common.
#[unsafe(no_mangle)]
pub extern "C" fn tyvarmos_lookup(
    image: &[u8],
    p: usize,
    n: usize,
    root: usize,
    key: &[u8],
    answer: &mut [u8],
) -> u64
    ensures { (result ≡ told_number (looked_fields (lookup_of image.now p n root key.now)) answer.old)
        × (answer.new ≡ told_answer (looked_fields (lookup_of image.now p n root key.now)) answer.old) }
{
    shard::tyvarmos_lookup(image, p, n, root, key, answer)
}

// The same of login's lookup, which looks at the header of each page and at the elements that halving comes by.
#[unsafe(no_mangle)]
pub extern "C" fn tyvarmos_quick(
    image: &[u8],
    p: usize,
    n: usize,
    root: usize,
    key: &[u8],
    answer: &mut [u8],
) -> u64
    ensures { (result ≡ told_number (looked_fields (quick_of image.now p n root key.now)) answer.old)
        × (answer.new ≡ told_answer (looked_fields (quick_of image.now p n root key.now)) answer.old) }
{
    shard::tyvarmos_quick(image, p, n, root, key, answer)
}

// The number of the judge's answer, whose fields stand in `answer`: entries, pages, page, element, common.
#[unsafe(no_mangle)]
pub extern "C" fn tyvarmos_judge(
    image: &[u8],
    p: usize,
    n: usize,
    root: usize,
    freelist: usize,
    answer: &mut [u8],
) -> u64
    ensures { (result ≡ told_number (judged_fields (judge_of image.now p n root freelist)) answer.old)
        × (answer.new ≡ told_answer (judged_fields (judge_of image.now p n root freelist)) answer.old) }
{
    shard::tyvarmos_judge(image, p, n, root, freelist, answer)
}

// The number of the newest meta's answer, whose fields stand in `answer`: the page it was taken from, pagesize, root_page, next_int, num_pages, freelist_page, tx_id.
#[unsafe(no_mangle)]
pub extern "C" fn tyvarmos_meta(image: &[u8], p: usize, answer: &mut [u8]) -> u64
    ensures { (result ≡ told_number (newest_fields (newest_of image.now p)) answer.old)
        × (answer.new ≡ told_answer (newest_fields (newest_of image.now p)) answer.old) }
{
    shard::tyvarmos_meta(image, p, answer)
}
