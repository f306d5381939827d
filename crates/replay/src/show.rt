// What is printed: the records that differ, then a line for each call, then the sums.
use super::tally::{CALLS, counted};
use std::io;

// Prints that a record differs, or with call 0 that it cannot be read.
pub fn differs(rt: &impl Print, which: u64, call: usize) -> io::Result<()> {
    println!(rt; "record {which} differs, call {call}")
}

// Prints how many answers of a call were the same, and how many differ.
fn row(rt: &impl Print, counts: &[u64], call: usize, name: &str) -> io::Result<()> {
    let same = counted(counts, call, false);
    let differing = counted(counts, call, true);
    println!(rt; "{name}: {same} same, {differing} differ")
}

// Prints the rows of the calls on images and blocks.
fn block_rows(rt: &impl Print, counts: &[u64]) -> io::Result<()> {
    row(rt, counts, 1, "lookup")?;
    row(rt, counts, 2, "judge")?;
    row(rt, counts, 3, "index")?;
    row(rt, counts, 4, "index_page")?;
    row(rt, counts, 5, "size")?;
    row(rt, counts, 6, "new_leaf")?;
    row(rt, counts, 7, "new_branch")?;
    row(rt, counts, 8, "insert")?;
    row(rt, counts, 9, "delete")?;
    row(rt, counts, 10, "insert_branch")?;
    row(rt, counts, 11, "split")?;
    row(rt, counts, 12, "split_write")
}

// Prints the rows of the calls on tables and metas, and of the quick lookup, which came after them.
fn table_rows(rt: &impl Print, counts: &[u64]) -> io::Result<()> {
    row(rt, counts, 13, "free_new")?;
    row(rt, counts, 14, "free_init")?;
    row(rt, counts, 15, "free_pages")?;
    row(rt, counts, 16, "release")?;
    row(rt, counts, 17, "allocate")?;
    row(rt, counts, 18, "free_list")?;
    row(rt, counts, 19, "free_size")?;
    row(rt, counts, 20, "meta_read")?;
    row(rt, counts, 21, "meta_write")?;
    row(rt, counts, 22, "fnv1a")?;
    row(rt, counts, 23, "quick")
}

// Prints the counts of every call, of what could not be read, and the sums.
pub fn summary(rt: &impl Print, counts: &[u64]) -> io::Result<()> {
    block_rows(rt, counts)?;
    table_rows(rt, counts)?;
    row(rt, counts, 0, "not readable")?;
    let same = counted(counts, CALLS, false);
    let differing = counted(counts, CALLS, true);
    let answers = same.wrapping_add(differing);
    println!(rt; "{answers} answers, {differing} differ")
}
