// Splits of one leaf of five entries, each answer printed, and what the list and the output then hold.
use super::show::{holds, list, parted, refused, written};
use cuts::split;
use node::edit::{insert_data, new_leaf};
use page::Breach;
use split::split_write;
use std::io;

// 01's leaf of 1,024 bytes: five entries with payloads 164, 165, 165, 165, 165.
fn five() -> Result<[u8; 1024], Breach> {
    let value = [55u8; 164];
    let mut none = [0u8; 1024];
    new_leaf(1024, 5, &mut none)?;
    let mut a = [0u8; 1024];
    insert_data(&none, 1024, b"a", 0, &value[0..163], &mut a)?;
    let mut b = [0u8; 1024];
    insert_data(&a, 1024, b"b", 0, &value, &mut b)?;
    let mut c = [0u8; 1024];
    insert_data(&b, 1024, b"c", 0, &value, &mut c)?;
    let mut d = [0u8; 1024];
    insert_data(&c, 1024, b"d", 0, &value, &mut d)?;
    let mut e = [0u8; 1024];
    insert_data(&d, 1024, b"e", 0, &value, &mut e)?;
    Ok(e)
}

// Prints what writing the leaf's pieces to two pages answers.
fn write_two(
    rt: &impl Print,
    b: &[u8],
    n: usize,
    first: u64,
    second: u64,
    out: &mut [u8],
) -> io::Result<()> {
    let mut pages = [first; 2];
    pages[1] = second;
    written(rt, split_write(b, 1024, n, &pages, out))?;
    holds(rt, out)
}

// Prints what splitting the leaf answers with a list of no room.
fn no_room(rt: &impl Print, b: &[u8], cuts: &mut [u64]) -> io::Result<()> {
    parted(rt, split(b, 1024, &mut cuts[0..0]))
}

// Prints what writing the leaf's pieces answers: page numbers that are wrong, an output one byte short, and pages 9 and 8.
fn writes(rt: &impl Print, leaf: &[u8]) -> io::Result<()> {
    let mut out = [165u8; 2064];
    let pages = [8u64; 1];
    written(rt, split_write(leaf, 1024, 32, &pages, &mut out))?;
    write_two(rt, leaf, 1, 8, 9, &mut out)?;
    write_two(rt, leaf, 32, 8, 8, &mut out)?;
    write_two(rt, leaf, 32, 1, 8, &mut out)?;
    write_two(rt, leaf, 32, 31, 32, &mut out)?;
    let mut short = [165u8; 2047];
    write_two(rt, leaf, 32, 9, 8, &mut short)?;
    write_two(rt, leaf, 32, 9, 8, &mut out)
}

// Prints what splitting the leaf answers, and what the list then holds.
fn split_leaf(rt: &impl Print, leaf: &[u8]) -> io::Result<()> {
    let mut cuts = [7u64; 2];
    no_room(rt, leaf, &mut cuts)?;
    list(rt, &cuts)?;
    parted(rt, split(leaf, 1024, &mut cuts))?;
    list(rt, &cuts)?;
    writes(rt, leaf)
}

// Prints the answers to splits of the leaf of five entries.
pub fn splits(rt: &impl Print) -> io::Result<()> {
    match five() {
        Ok(leaf) => split_leaf(rt, &leaf),
        Err(b) => refused(rt, "five", b),
    }
}

// Prints what writing a block above a node's limit answers, with room for it in the image.
pub fn large_split(rt: &impl Print, large: &[u8]) -> io::Result<()> {
    let pages = [8u64; 1];
    let mut out = [165u8; 1024];
    written(rt, split_write(large, 1024, 2000, &pages, &mut out))?;
    holds(rt, &out)
}
