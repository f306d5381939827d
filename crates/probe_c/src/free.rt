// The calls on a lent freelist table. Those without fields need no room in the answer buffer, which stays.
ghost use Rattle.std.specs.Prelude.{◌≡◌};
ghost use Rattle.answer.specs.Answer.{told_number, told_answer, lent_with};
ghost use Rattle.field.specs.Refusal.{number_in, on_ok};
ghost use Rattle.freelist.specs.Answers.{allocated_fields, listed_fields, measured_fields};
ghost use Rattle.freelist.specs.Freelist.{fault_of, new_check, new_table, init_check, init_table, free_check, free_table, release_table, allocate_answer, allocate_table, pages_answer, pages_list, size_answer};

// The number of a new table, in which all pages are in use.
#[unsafe(no_mangle)]
pub extern "C" fn tyvarmos_free_new(table: &mut [u64], answer: &mut [u8]) -> u64
    ensures { (result ≡ number_in (new_check table.old))
        × (table.new ≡ on_ok (new_check table.old) (new_table table.old) table.old)
        × (answer.new ≡ answer.old) }
{
    probe::free::tyvarmos_free_new(table, answer)
}

// The number of an initial list, whose pages become free.
#[unsafe(no_mangle)]
pub extern "C" fn tyvarmos_free_init(
    table: &mut [u64],
    n: u64,
    ids: &[u64],
    answer: &mut [u8],
) -> u64
    ensures { (result ≡ number_in (init_check table.old n ids.now))
        × (table.new ≡ on_ok (init_check table.old n ids.now) (init_table table.old ids.now) table.old)
        × (answer.new ≡ answer.old) }
{
    probe::free::tyvarmos_free_init(table, n, ids, answer)
}

// The number of a free of `count` pages from `p` on, which become pending under `t`.
#[unsafe(no_mangle)]
pub extern "C" fn tyvarmos_free_pages(
    table: &mut [u64],
    n: u64,
    p: u64,
    count: u64,
    t: u64,
    answer: &mut [u8],
) -> u64
    ensures { (result ≡ number_in (free_check table.old n p count))
        × (table.new ≡ on_ok (free_check table.old n p count) (free_table table.old p count t) table.old)
        × (answer.new ≡ answer.old) }
{
    probe::free::tyvarmos_free_pages(table, n, p, count, t, answer)
}

// The number of a release of every page that is pending under a number below `t`.
#[unsafe(no_mangle)]
pub extern "C" fn tyvarmos_release(table: &mut [u64], n: u64, t: u64, answer: &mut [u8]) -> u64
    ensures { (result ≡ number_in (fault_of table.old n))
        × (table.new ≡ on_ok (fault_of table.old n) (release_table table.old n t) table.old)
        × (answer.new ≡ answer.old) }
{
    probe::free::tyvarmos_release(table, n, t, answer)
}

// The number of pages handed out for `bytes` at the page size `p`, with the fields start and N after.
#[unsafe(no_mangle)]
pub extern "C" fn tyvarmos_allocate(
    table: &mut [u64],
    n: u64,
    p: u64,
    bytes: u64,
    answer: &mut [u8],
) -> u64
    ensures { (result ≡ told_number (allocated_fields (allocate_answer table.old n p bytes)) answer.old)
        × (answer.new ≡ told_answer (allocated_fields (allocate_answer table.old n p bytes)) answer.old)
        × (table.new ≡ lent_with 2 answer.old table.old
        (on_ok (allocate_answer table.old n p bytes) (allocate_table table.old n p bytes) table.old)) }
{
    probe::free::tyvarmos_allocate(table, n, p, bytes, answer)
}

// The number of the listing of free and pending ids in `ids`, with the field ids written.
#[unsafe(no_mangle)]
pub extern "C" fn tyvarmos_free_list(
    table: &[u64],
    n: u64,
    ids: &mut [u64],
    answer: &mut [u8],
) -> u64
    ensures { (result ≡ told_number (listed_fields (pages_answer table.now n ids.old)) answer.old)
        × (answer.new ≡ told_answer (listed_fields (pages_answer table.now n ids.old)) answer.old)
        × (ids.new ≡ lent_with 1 answer.old ids.old
        (on_ok (pages_answer table.now n ids.old) (pages_list table.now n ids.old) ids.old)) }
{
    probe::free::tyvarmos_free_list(table, n, ids, answer)
}

// The number of the freelist's size, with the field size.
#[unsafe(no_mangle)]
pub extern "C" fn tyvarmos_free_size(table: &[u64], n: u64, answer: &mut [u8]) -> u64
    ensures { (result ≡ told_number (measured_fields (size_answer table.now n)) answer.old)
        × (answer.new ≡ told_answer (measured_fields (size_answer table.now n)) answer.old) }
{
    probe::free::tyvarmos_free_size(table, n, answer)
}
