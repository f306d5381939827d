// Replays the recorded answers of jammdb 0.11.0 that standard input holds: makes each call, and compares its number, its fields and every byte
// of its output with what is recorded.

#![tactic(auto)]

mod calls;
mod lists;
mod record;
mod show;
mod tally;

use calls::{made_call, put_bytes};
use record::{BLOCK, FIELDS, OUTPUT, answered, call, is_readable, part, record_end, unpack};
use show::{differs, summary};
use std::io;
use std::io::Read;
use tally::count;

// What lent output holds before a call, a byte and a word.
const FILLER: u8 = 165;

const FILLER_WORD: u64 = 11936128518282651045;

// The byte expected at a place: what is recorded, or what was there.
fn expected(recorded: &[u8], i: usize) -> u8 {
    recorded.get(i).copied().unwrap_or(FILLER)
}

// Whether lent bytes are those recorded, and the rest of them as they were.
fn is_same(lent: &[u8], recorded: &[u8]) -> bool {
    for (i, &byte) in lent.iter().enumerate() {
        if byte != expected(recorded, i) {
            return false;
        }
    }
    recorded.len() <= lent.len()
}

// Whether the call answers what is recorded.
fn answers_so(r: &[u8], image: &[u8], table: &mut [u64], list: &mut [u64], out: &mut [u8]) -> bool {
    let mut answer = [FILLER; 88];
    let number = made_call(r, image, table, list, out, &mut answer);
    if number != answered(r) {
        return false;
    }
    is_same(&answer, part(r, FIELDS)) && is_same(out, part(r, OUTPUT))
}

// Lent output of bytes.
fn output() -> [u8; 32768] {
    [FILLER; 32768]
}

// Lent output of words.
fn words() -> [u64; 4096] {
    [FILLER_WORD; 4096]
}

// Whether the call answers what is recorded, with output of its own.
fn is_replayed(r: &[u8], image: &[u8], table: &mut [u64]) -> bool {
    let mut out = output();
    let mut list = words();
    answers_so(r, image, table, &mut list, &mut out)
}

// Replays one record and counts it; one of call 0 gives the image for those after it.
fn replay(
    rt: &impl Print,
    r: &[u8],
    which: u64,
    image: &mut [u8],
    table: &mut [u64],
    counts: &mut [u64],
) -> io::Result<()> {
    if !is_readable(r) {
        differs(rt, which, 0)?;
        count(counts, 0, true);
        return Ok(());
    }
    let c = call(r);
    if c == 0 {
        put_bytes(part(r, BLOCK), image);
        return Ok(());
    }
    if is_replayed(r, image, table) {
        count(counts, c, false);
        return Ok(());
    }
    differs(rt, which, c)?;
    count(counts, c, true);
    Ok(())
}

// Replays the records of a file one after the other.
fn replay_all(
    rt: &impl Print,
    file: &[u8],
    record: &mut [u8],
    image: &mut [u8],
    table: &mut [u64],
    counts: &mut [u64],
) -> io::Result<()> {
    let mut at = 0;
    let mut which = 0u64;
    // No count: each turn goes on where a record ends.
    while at < file.len() {
        let end = record_end(file, at);
        let n = unpack(&file[at..end], record);
        which = which.wrapping_add(1);
        replay(rt, &record[..n], which, image, table, counts)?;
        at = end;
    }
    Ok(())
}

// A table with every page in use.
fn new_table() -> [u64; 33792] {
    [0u64; 33792]
}

// Room for a record or an image.
fn buffer() -> [u8; 65536] {
    [0u8; 65536]
}

// Replays a file and prints the counts.
fn replay_file(rt: &impl Print, file: &[u8]) -> io::Result<()> {
    let mut record = buffer();
    let mut image = buffer();
    let mut table = new_table();
    let mut counts = [0u64; 50];
    replay_all(rt, file, &mut record, &mut image, &mut table, &mut counts)?;
    summary(rt, &counts)
}

// Replays what standard input holds.
fn main(rt: HostRuntime) -> io::Result<()> {
    let mut file = Vec::new(rt.alloc());
    rt.reader().read_to_end(&mut file)?;
    replay_file(&rt, file.as_slice())
}
