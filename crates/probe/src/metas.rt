// The calls on a meta page, and the hash.
ghost use Rattle.std.specs.Prelude.{◌≡◌, [], ◌∷◌};
ghost use Rattle.answer.specs.Answer.{told_number, told_answer, lent_with};
ghost use Rattle.meta.specs.Fnv.{fnv1a_of};
ghost use Rattle.meta.specs.Meta.{meta_of, read_of, write_of, page_left, meta_read_fields, meta_written_fields};

use answer::give;
use field::Refusal;
use meta::fnv::fnv1a;
use meta::{Meta, read_meta, write_meta};

// The number of a meta that was read, whose ten fields stand in `answer` in their order.
fn tell_read(answer: &mut [u8], read: Result<Meta, Refusal>) -> u64
    ensures { (result ≡ told_number (meta_read_fields read) answer.old)
        × (answer.new ≡ told_answer (meta_read_fields read) answer.old) }
{
    match read {
        Ok(m) => {
            let values = [
                u64::from(m.meta_page),
                u64::from(m.magic),
                u64::from(m.version),
                m.pagesize,
                m.root_page,
                m.next_int,
                m.num_pages,
                m.freelist_page,
                m.tx_id,
                m.hash,
            ];
            give(answer, 0, &values)
        }
        Err(refusal) => give(answer, u64::from(refusal), &[0; 10]),
    }
}

// The number of a meta that was written, whose hash stands in `answer`.
fn tell_written(answer: &mut [u8], written: Result<u64, Refusal>) -> u64
    ensures { (result ≡ told_number (meta_written_fields written) answer.old)
        × (answer.new ≡ told_answer (meta_written_fields written) answer.old) }
{
    match written {
        Ok(hash) => give(answer, 0, &[hash]),
        Err(refusal) => give(answer, u64::from(refusal), &[0]),
    }
}

// The number of the page's meta, with its ten fields.
#[unsafe(no_mangle)]
pub extern "C" fn tyvarmos_meta_read(page: &[u8], answer: &mut [u8]) -> u64
    ensures { (result ≡ told_number (meta_read_fields (read_of page.now)) answer.old)
        × (answer.new ≡ told_answer (meta_read_fields (read_of page.now)) answer.old) }
{
    tell_read(answer, read_meta(page))
}

// The number of a meta that is written with the hash of its nine fields, with the field hash.
#[unsafe(no_mangle)]
pub extern "C" fn tyvarmos_meta_write(
    page: &mut [u8],
    meta_page: u32,
    magic: u32,
    version: u32,
    pagesize: u64,
    root_page: u64,
    next_int: u64,
    num_pages: u64,
    freelist_page: u64,
    tx_id: u64,
    answer: &mut [u8],
) -> u64
    ensures { (result ≡ told_number (meta_written_fields (write_of page.old (meta_of meta_page magic version pagesize root_page next_int num_pages freelist_page tx_id))) answer.old)
        × (answer.new ≡ told_answer (meta_written_fields (write_of page.old (meta_of meta_page magic version pagesize root_page next_int num_pages freelist_page tx_id))) answer.old)
        × (page.new ≡ lent_with 1 answer.old page.old
        (page_left page.old (meta_of meta_page magic version pagesize root_page next_int num_pages freelist_page tx_id))) }
{
    if answer.len() / 8 < 1 {
        return u64::from(Refusal::Geometry);
    }
    let m = Meta {
        meta_page,
        magic,
        version,
        pagesize,
        root_page,
        next_int,
        num_pages,
        freelist_page,
        tx_id,
        hash: 0,
    };
    let written = write_meta(page, m);
    tell_written(answer, written)
}

// 0, with the FNV-1a hash of the bytes as the field hash.
#[unsafe(no_mangle)]
pub extern "C" fn tyvarmos_fnv1a(bytes: &[u8], answer: &mut [u8]) -> u64
    ensures { (result ≡ told_number (0 ∷ fnv1a_of bytes.now ∷ []) answer.old)
        × (answer.new ≡ told_answer (0 ∷ fnv1a_of bytes.now ∷ []) answer.old) }
{
    give(answer, 0, &[fnv1a(bytes)])
}
