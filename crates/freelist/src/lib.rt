// The freelist over a table that the caller lends: each page below 32,768 is in use, free, or pending under a transaction's number.

#![tactic(auto)]

ghost use Rattle.std.specs.Prelude.{◌≡◌};
ghost use Rattle.field.specs.Refusal.{on_ok};
ghost use Rattle.freelist.specs.Freelist.{fault_of, new_check, new_table, init_check, init_table, free_check, free_table, release_table, allocate_answer, allocate_table, pages_answer, pages_list, size_answer};

mod check;
mod list;
mod row;
mod run;
mod table;

use check::check_table;
use field::Refusal;
use list::{check_initial, count_listed, free_each, write_listed};
use row::{check_used, put_all, release_all};
use run::{check_request, lowest_run, pages_needed};
pub use table::State;
use table::{MOST_PAGES, TABLE_WORDS, clear_bits};

// The bytes of a page's header, and of an id in a freelist page.
const HEADER_SIZE: u64 = 40;

const PAGE_ID_SIZE: u64 = 8;

// What `allocate` hands out: the first page, and the count of pages from then on.
#[derive(Clone, Copy)]
pub struct Allocated {
    pub start: u64,
    pub count: u64,
}

// Makes a new table, all pages in use. A table too short for 32,768 pages is refused.
pub fn new(table: &mut [u64]) -> Result<(), Refusal>
    ensures answer { result ≡ new_check table.old }
    ensures lent { table.new ≡ on_ok result (new_table table.old) table.old }
{
    if table.len() < TABLE_WORDS {
        return Err(Refusal::Geometry);
    }
    clear_bits(table);
    Ok(())
}

// Frees the pages of the initial list, which rise strictly, each from 2 to n - 1 and in use, or else are refused.
pub fn init(table: &mut [u64], n: u64, ids: &[u64]) -> Result<(), Refusal>
    ensures answer { result ≡ init_check table.old n ids.now }
    ensures lent { table.new ≡ on_ok result (init_table table.old ids.now) table.old }
{
    check_initial(table, n, ids)?;
    free_each(table, ids);
    Ok(())
}

// Makes `count` pages from `p` on pending under `tx`: at least one, all inside 2 to n - 1 and in use, or else refused.
pub fn free(table: &mut [u64], n: u64, p: u64, count: u64, tx: u64) -> Result<(), Refusal>
    ensures answer { result ≡ free_check table.old n p count }
    ensures lent { table.new ≡ on_ok result (free_table table.old p count tx) table.old }
{
    check_used(table, n, p, count)?;
    put_all(table, p, count, State::Pending(tx));
    Ok(())
}

// Frees every page that is pending under a number below `tx`.
pub fn release(table: &mut [u64], n: u64, tx: u64) -> Result<(), Refusal>
    ensures answer { result ≡ fault_of table.old n }
    ensures lent { table.new ≡ on_ok result (release_table table.old n tx) table.old }
{
    check_table(table, n)?;
    release_all(table, n, tx);
    Ok(())
}

// Hands out pages for `bytes`: the lowest run of free pages, or else pages from `n` on, by which the count grows; full past 32,768.
pub fn allocate(table: &mut [u64], n: u64, page_size: u64, bytes: u64) -> Result<Allocated, Refusal>
    ensures answer { result ≡ allocate_answer table.old n page_size bytes }
    ensures lent { table.new ≡ on_ok result (allocate_table table.old n page_size bytes) table.old }
{
    check_request(table, n, page_size, bytes)?;
    let pages = pages_needed(bytes, page_size);
    if let Some(start) = lowest_run(table, n, pages) {
        put_all(table, start, pages, State::InUse);
        return Ok(Allocated { start, count: n });
    }
    if MOST_PAGES - n < pages {
        return Err(Refusal::Full);
    }
    put_all(table, n, pages, State::InUse);
    Ok(Allocated {
        start: n,
        count: n + pages,
    })
}

// How many free and pending ids were written to `ids`, rising, from `ids[0]` on. A list too short for them is refused.
pub fn pages(table: &[u64], n: u64, ids: &mut [u64]) -> Result<u64, Refusal>
    ensures answer { result ≡ pages_answer table.now n ids.old }
    ensures lent { ids.new ≡ on_ok result (pages_list table.now n ids.old) ids.old }
{
    check_table(table, n)?;
    let count = count_listed(table, n);
    if (ids.len() as u64) < count {
        return Err(Refusal::OutputShort);
    }
    write_listed(table, n, ids);
    Ok(count)
}

// The size of the freelist in bytes: 40 plus 8 for each free or pending page.
pub fn size(table: &[u64], n: u64) -> Result<u64, Refusal>
    ensures answer { result ≡ size_answer table.now n }
{
    check_table(table, n)?;
    Ok(HEADER_SIZE + PAGE_ID_SIZE * count_listed(table, n))
}
