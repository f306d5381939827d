// A record: a head of u64 numbers, then parts of bytes, whose ends the head says.
ghost use Rattle.std.specs.Prelude.{◌<◌, ◌≤◌, length};

use super::tally::CALLS;
use field::number::u64_at;
use field::run::clear;

// The numbers of the head: the call, the number it is to answer, nine arguments, the room lent, the ends of the parts.
const ANSWERED: usize = 1;

const ARGUMENTS: usize = 2;

const ROOM: usize = 11;

const ENDS: usize = 12;

const NUMBERS: usize = 17;

const HEAD: usize = 136;

// The parts: a block, image, page or text; a key; a value, original key or list of pages; the fields; the output.
pub const BLOCK: usize = 0;

pub const KEY: usize = 1;

pub const OTHER: usize = 2;

pub const FIELDS: usize = 3;

pub const OUTPUT: usize = 4;

const PARTS: usize = 5;

// The number at a place of the head, 0 where there is none.
fn number(record: &[u8], i: usize) -> u64 {
    if record.len() < HEAD {
        return 0;
    }
    if NUMBERS <= i {
        return 0;
    }
    u64_at(record, 8 * i)
}

// Which call is recorded, 0 for an image.
pub fn call(record: &[u8]) -> usize {
    number(record, 0) as usize
}

// The number that the call is to answer.
pub fn answered(record: &[u8]) -> u64 {
    number(record, ANSWERED)
}

// An argument of the call.
pub fn argument(record: &[u8], i: usize) -> u64 {
    if NUMBERS <= i {
        return 0;
    }
    number(record, ARGUMENTS + i)
}

// An argument that is a size, a count or an index.
pub fn count(record: &[u8], i: usize) -> usize {
    argument(record, i) as usize
}

// How many bytes or words of output are lent, of so many.
pub fn room(record: &[u8], most: usize) -> usize
    ensures { result ≤ most }
{
    most.min(number(record, ROOM) as usize)
}

// Where a part begins.
fn start(record: &[u8], k: usize) -> usize {
    if k == 0 {
        return HEAD;
    }
    if PARTS <= k {
        return HEAD;
    }
    number(record, ENDS - 1 + k) as usize
}

// Where a part ends.
fn end(record: &[u8], k: usize) -> usize {
    if PARTS <= k {
        return HEAD;
    }
    number(record, ENDS + k) as usize
}

// Whether a part stands in the record.
fn has_part(record: &[u8], k: usize) -> bool {
    start(record, k) <= end(record, k) && end(record, k) <= record.len()
}

// A part of the record, empty where it does not stand in it.
pub fn part(record: &[u8], k: usize) -> &[u8] {
    let from = start(record, k);
    let to = end(record, k);
    if to < from {
        return &record[0..0];
    }
    if record.len() < to {
        return &record[0..0];
    }
    &record[from..to]
}

// Whether the record can be read: a whole head, a call, and every part in the record, the last to its end.
pub fn is_readable(record: &[u8]) -> bool {
    if record.len() < HEAD {
        return false;
    }
    if CALLS <= call(record) {
        return false;
    }
    for k in 0..PARTS {
        if !has_part(record, k) {
            return false;
        }
    }
    end(record, OUTPUT) == record.len()
}

// Where the record that starts at `at` ends: after as many bytes as its first eight say, or with the file.
pub fn record_end(file: &[u8], at: usize) -> usize
    requires { at < length file.now }
    ensures { (at < result) × (result ≤ length file.now) }
{
    let left = file.len() - at;
    if left < 8 {
        return file.len();
    }
    let packed = u64_at(file, at) as usize;
    if left - 8 < packed {
        return file.len();
    }
    at + 8 + packed
}

// Unpacks a record, in which each zero byte stands before a count of zeros: how many bytes it has, 0 where it is cut short or too long.
pub fn unpack(packed: &[u8], out: &mut [u8]) -> usize
    ensures { result ≤ length out.old }
{
    if packed.len() < 8 {
        return 0;
    }
    if u64_at(packed, 0) as usize != packed.len() - 8 {
        return 0;
    }
    let mut n = 0;
    let mut i = 8;
    // No count: a turn takes one byte, or a zero and its count.
    while i < packed.len() {
        if out.len() <= n {
            return 0;
        }
        if packed[i] == 0 {
            let zeros = zeros_at(packed, i + 1);
            if out.len() - n < zeros {
                return 0;
            }
            clear(out, n, n + zeros);
            n += zeros;
            i += 2;
        } else {
            out[n] = packed[i];
            n += 1;
            i += 1;
        }
    }
    n
}

// The count at a place, 0 past the end.
fn zeros_at(packed: &[u8], at: usize) -> usize {
    packed.get(at).map_or(0, |&count| usize::from(count))
}
