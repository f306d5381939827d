// Prints 01's page of two entries byte for byte, then what each call on a single block answers to good and bad arguments.

#![tactic(auto)]

mod branches;
mod calls;
mod show;
mod splits;

use branches::branch_edits;
use calls::{edits, new_nodes, on_block};
use node::edit::{insert_data, new_branch, new_leaf};
use show::{dump, edited, title};
use splits::{large_split, splits};
use std::io;

// The bytes of one page, and of a block too large for a node.
const PAGE: usize = 1024;

const LARGE: usize = 1049600;

// 01's page 5: a to xy, b to nothing.
fn page_five(rt: &impl Print) -> io::Result<[u8; 1024]> {
    let mut empty = [165u8; 1024];
    edited(rt, "new_leaf", new_leaf(PAGE, 5, &mut empty))?;
    let mut one = [165u8; 1024];
    edited(
        rt,
        "insert_data a",
        insert_data(&empty, PAGE, b"a", 0, b"xy", &mut one),
    )?;
    let mut two = [165u8; 1024];
    edited(
        rt,
        "insert_data b",
        insert_data(&one, PAGE, b"b", 0, b"", &mut two),
    )?;
    Ok(two)
}

// Prints the answers to the block with another type, count, kind and key, each breaking one rule.
fn broken(rt: &impl Print, page: [u8; 1024]) -> io::Result<()> {
    title(rt, "type 3")?;
    let mut typed = page;
    typed[8] = 3;
    on_block(rt, &typed, PAGE)?;
    title(rt, "overflow 1")?;
    let mut longer = page;
    longer[24] = 1;
    on_block(rt, &longer, PAGE)?;
    title(rt, "count 32")?;
    let mut counted = page;
    counted[16] = 32;
    on_block(rt, &counted, PAGE)?;
    title(rt, "kind 2 in element 1")?;
    let mut kind = page;
    kind[64] = 2;
    on_block(rt, &kind, PAGE)?;
    title(rt, "equal keys")?;
    let mut equal = page;
    equal[99] = 97;
    on_block(rt, &equal, PAGE)
}

// A leaf of two entries, the second above a node's limit: 1,025 pages, with a value of 1,049,000 bytes.
fn large_leaf() -> [u8; 1049600] {
    let mut large = [0u8; 1049600];
    large[0] = 9;
    large[8] = 2;
    large[16] = 2;
    large[25] = 4;
    large[40] = 64;
    large[48] = 1;
    large[72] = 33;
    large[80] = 1;
    large[88] = 168;
    large[89] = 1;
    large[90] = 16;
    large[96] = 97;
    large[97] = 98;
    large
}

// Prints the answers to a branch of one entry.
fn branch(rt: &impl Print) -> io::Result<()> {
    let mut out = [165u8; 1024];
    edited(rt, "new_branch", new_branch(PAGE, 6, b"m", 7, &mut out))?;
    dump(rt, &out[0..64])?;
    on_block(rt, &out, PAGE)?;
    branch_edits(rt, &out, PAGE)
}

// Prints the answers to a block above a node's limit, and to keys and values above it.
fn too_large(rt: &impl Print, page: &[u8]) -> io::Result<()> {
    let large = large_leaf();
    title(rt, "large")?;
    on_block(rt, &large, PAGE)?;
    title(rt, "arguments")?;
    edits(rt, page, PAGE, &large)?;
    new_nodes(rt, &large)?;
    large_split(rt, &large)
}

// Prints the example, the answers to it, to a branch, to what breaks the rules and to what is too large.
fn main(rt: HostRuntime) -> io::Result<()> {
    let page = page_five(&rt)?;
    dump(&rt, &page)?;
    title(&rt, "page 5")?;
    on_block(&rt, &page, PAGE)?;
    title(&rt, "page size 1000")?;
    on_block(&rt, &page, 1000)?;
    title(&rt, "1023 bytes")?;
    on_block(&rt, &page[0..1023], PAGE)?;
    broken(&rt, page)?;
    title(&rt, "branch")?;
    branch(&rt)?;
    title(&rt, "split")?;
    splits(&rt)?;
    too_large(&rt, &page)
}
