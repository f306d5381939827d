// The calls on a meta page, and the hash.
ghost use Rattle.std.specs.Prelude.{◌≡◌, [], ◌∷◌};
ghost use Rattle.answer.specs.Answer.{told_number, told_answer, lent_with};
ghost use Rattle.meta.specs.Fnv.{fnv1a_of};
ghost use Rattle.meta.specs.Meta.{meta_of, read_of, write_of, page_left, meta_read_fields, meta_written_fields};

// The number of the page's meta, with its ten fields.
#[unsafe(no_mangle)]
pub extern "C" fn tyvarmos_meta_read(page: &[u8], answer: &mut [u8]) -> u64
    ensures { (result ≡ told_number (meta_read_fields (read_of page.now)) answer.old)
        × (answer.new ≡ told_answer (meta_read_fields (read_of page.now)) answer.old) }
{
    probe::metas::tyvarmos_meta_read(page, answer)
}

// The number of a meta that is written with the hash of its nine fields, with the field hash.
#[unsafe(no_mangle)]
pub extern "C" fn tyvarmos_meta_write(
    page: &mut [u8],
    meta_page: u32,
    magic: u32,
    version: u32,
    pagesize: u64,
    root_page: u64,
    next_int: u64,
    num_pages: u64,
    freelist_page: u64,
    tx_id: u64,
    answer: &mut [u8],
) -> u64
    ensures { (result ≡ told_number (meta_written_fields (write_of page.old (meta_of meta_page magic version pagesize root_page next_int num_pages freelist_page tx_id))) answer.old)
        × (answer.new ≡ told_answer (meta_written_fields (write_of page.old (meta_of meta_page magic version pagesize root_page next_int num_pages freelist_page tx_id))) answer.old)
        × (page.new ≡ lent_with 1 answer.old page.old
        (page_left page.old (meta_of meta_page magic version pagesize root_page next_int num_pages freelist_page tx_id))) }
{
    probe::metas::tyvarmos_meta_write(
        page,
        meta_page,
        magic,
        version,
        pagesize,
        root_page,
        next_int,
        num_pages,
        freelist_page,
        tx_id,
        answer,
    )
}

// 0, with the FNV-1a hash of the bytes as the field hash.
#[unsafe(no_mangle)]
pub extern "C" fn tyvarmos_fnv1a(bytes: &[u8], answer: &mut [u8]) -> u64
    ensures { (result ≡ told_number (0 ∷ fnv1a_of bytes.now ∷ []) answer.old)
        × (answer.new ≡ told_answer (0 ∷ fnv1a_of bytes.now ∷ []) answer.old) }
{
    probe::metas::tyvarmos_fnv1a(bytes, answer)
}
