// Edits of branches, each answer printed, and a hash of the output's bytes after each.
use super::show::{edited, holds};
use branch::insert_branch;
use std::io;

// Prints what an insert in a branch answers.
fn insert(
    rt: &impl Print,
    b: &[u8],
    p: usize,
    original: Option<&[u8]>,
    key: &[u8],
    child: u64,
    out: &mut [u8],
) -> io::Result<()> {
    edited(
        rt,
        "insert_branch",
        insert_branch(b, p, original, key, child, out),
    )?;
    holds(rt, out)
}

// Prints what edits of the branch of m answer: conflicts, a bad child, a replacement, and an output one byte short.
pub fn branch_edits(rt: &impl Print, b: &[u8], p: usize) -> io::Result<()> {
    let mut out = [165u8; 1024];
    insert(rt, b, p, None, b"m", 9, &mut out)?;
    insert(rt, b, p, Some(b"k"), b"k", 9, &mut out)?;
    insert(rt, b, p, Some(b"m"), b"n", 1, &mut out)?;
    insert(rt, b, p, Some(b"m"), b"n", 9, &mut out)?;
    let mut two = [165u8; 1024];
    insert(rt, b, p, None, b"q", 9, &mut two)?;
    insert(rt, &two, p, Some(b"q"), b"a", 9, &mut out)?;
    insert(rt, &two, p, Some(b"q"), b"m", 9, &mut out)?;
    let mut short = [165u8; 1023];
    insert(rt, b, p, None, b"q", 9, &mut short)
}
