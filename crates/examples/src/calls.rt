// Calls on single blocks, each answer printed, and a hash of the output's bytes after each edit.
use super::show::{
    child, deleted, edited, held, holds, indexed, measured, merging, parted, written,
};
use branch::insert_branch;
use cuts::split;
use node::edit::{delete, insert_data, new_branch, new_leaf};
use node::measure::{needs_merging, size};
use page::search::{entry, index, index_page};
use split::split_write;
use std::io;

// Prints what inserting x answers.
fn insert_x(
    rt: &impl Print,
    b: &[u8],
    p: usize,
    kind: u8,
    value: &[u8],
    out: &mut [u8],
) -> io::Result<()> {
    edited(rt, "insert_data", insert_data(b, p, b"x", kind, value, out))?;
    holds(rt, out)
}

// Prints what deleting an entry answers.
fn delete_at(rt: &impl Print, b: &[u8], p: usize, i: usize, out: &mut [u8]) -> io::Result<()> {
    deleted(rt, delete(b, p, i, out))?;
    holds(rt, out)
}

// Prints what each call answers to a block.
pub fn on_block(rt: &impl Print, b: &[u8], p: usize) -> io::Result<()> {
    indexed(rt, index(b, p, b"b"))?;
    child(rt, index_page(b, p, 0))?;
    held(rt, entry(b, p, 0))?;
    measured(rt, size(b, p))?;
    merging(rt, needs_merging(b, p))?;
    let mut cuts = [7u64; 2];
    parted(rt, split(b, p, &mut cuts))?;
    let mut out = [165u8; 1040];
    delete_at(rt, b, p, 0, &mut out)?;
    insert_x(rt, b, p, 0, b"yz", &mut out)?;
    edited(
        rt,
        "insert_branch",
        insert_branch(b, p, None, b"x", 9, &mut out),
    )?;
    holds(rt, &out)?;
    let pages = [8u64; 1];
    written(rt, split_write(b, p, 32, &pages, &mut out))?;
    holds(rt, &out)
}

// Prints what is past the end, then what edits answer to bad arguments, to a value above a node's limit and to an output one byte short.
pub fn edits(rt: &impl Print, b: &[u8], p: usize, large: &[u8]) -> io::Result<()> {
    held(rt, entry(b, p, 2))?;
    child(rt, index_page(b, p, 2))?;
    let mut out = [165u8; 1040];
    insert_x(rt, b, p, 2, b"yz", &mut out)?;
    insert_x(rt, b, p, 1, b"yz", &mut out)?;
    insert_x(rt, b, p, 1, b"sixteen bytes of", &mut out)?;
    insert_x(rt, b, p, 0, large, &mut out)?;
    delete_at(rt, b, p, 2, &mut out)?;
    let mut short = [165u8; 1023];
    insert_x(rt, b, p, 0, b"yz", &mut short)?;
    delete_at(rt, b, p, 1, &mut short)
}

// Prints what making a new node, and then a branch of more, answers to bad arguments, to a key above a node's limit and to an output one byte short.
pub fn new_nodes(rt: &impl Print, large: &[u8]) -> io::Result<()> {
    let mut short = [165u8; 1023];
    edited(rt, "new_leaf", new_leaf(1000, 5, &mut short))?;
    edited(rt, "new_leaf", new_leaf(1024, 5, &mut short))?;
    edited(rt, "new_branch", new_branch(1000, 6, b"m", 7, &mut short))?;
    edited(rt, "new_branch", new_branch(1024, 6, b"m", 1, &mut short))?;
    edited(rt, "new_branch", new_branch(1024, 6, large, 7, &mut short))?;
    edited(rt, "new_branch", new_branch(1024, 6, b"m", 7, &mut short))?;
    let mut branch = [165u8; 1024];
    let _ = new_branch(1024, 6, b"m", 7, &mut branch);
    edited(
        rt,
        "insert_branch",
        insert_branch(&branch, 1024, Some(b"m"), large, 9, &mut short),
    )?;
    edited(
        rt,
        "insert_branch",
        insert_branch(&branch, 1024, None, large, 9, &mut short),
    )?;
    holds(rt, &short)
}
