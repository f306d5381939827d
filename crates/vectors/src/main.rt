// Prints the published vectors of FNV-1a at 64 bits, and what reading and writing a meta page answers.

#![tactic(auto)]

use meta::fnv::fnv1a;
use meta::{Meta, read_meta, write_meta};
use std::io;

// Prints a text, in quotes, and its hash.
fn vector(rt: &impl Print, text: &str) -> io::Result<()> {
    println!(rt; "\"{text}\" {:016x}", fnv1a(text.as_bytes()))
}

// Prints a name and a number.
fn line(rt: &impl Print, name: &str, n: u64) -> io::Result<()> {
    println!(rt; "{name} {n}")
}

// Prints a name and a hash.
fn hash_line(rt: &impl Print, name: &str, hash: u64) -> io::Result<()> {
    println!(rt; "{name} {hash:016x}")
}

// Prints the published vectors of one letter, those up to foobar and up to "chongo was here!", and hello.
fn vectors(rt: &impl Print) -> io::Result<()> {
    let texts = [
        "",
        "a",
        "b",
        "c",
        "d",
        "e",
        "f",
        "fo",
        "foo",
        "foob",
        "fooba",
        "foobar",
        "ch",
        "cho",
        "chon",
        "chong",
        "chongo",
        "chongo was",
        "chongo was here",
        "chongo was here!",
        "hello",
    ];
    for text in texts {
        vector(rt, text)?;
    }
    Ok(())
}

// Prints the fields of a meta.
fn print_meta(rt: &impl Print, m: Meta) -> io::Result<()> {
    line(rt, "meta_page", u64::from(m.meta_page))?;
    line(rt, "magic", u64::from(m.magic))?;
    line(rt, "version", u64::from(m.version))?;
    line(rt, "pagesize", m.pagesize)?;
    line(rt, "root_page", m.root_page)?;
    line(rt, "next_int", m.next_int)?;
    line(rt, "num_pages", m.num_pages)?;
    line(rt, "freelist_page", m.freelist_page)?;
    line(rt, "tx_id", m.tx_id)?;
    hash_line(rt, "hash", m.hash)
}

// Prints what reading the page answers.
fn try_read(rt: &impl Print, page: &[u8]) -> io::Result<()> {
    match read_meta(page) {
        Ok(m) => print_meta(rt, m),
        Err(refusal) => line(rt, "read refused", u64::from(refusal)),
    }
}

// Prints what writing to the page answers, and a hash of all its bytes afterwards.
fn try_write(rt: &impl Print, page: &mut [u8], m: Meta) -> io::Result<()> {
    match write_meta(page, m) {
        Ok(hash) => hash_line(rt, "written", hash)?,
        Err(refusal) => line(rt, "write refused", u64::from(refusal))?,
    }
    hash_line(rt, "page", fnv1a(page))
}

// Prints the bytes in hexadecimal, sixteen to a line.
fn dump(rt: &impl Print, page: &[u8]) -> io::Result<()> {
    for (i, byte) in page.iter().enumerate() {
        print!(rt; "{byte:02x}")?;
        if i % 16 == 15 {
            println!(rt)?;
        }
    }
    Ok(())
}

// A meta with a number in each field, and a hash that is not theirs.
fn sample() -> Meta {
    Meta {
        meta_page: 1,
        magic: 11259375,
        version: 16909060,
        pagesize: 1024,
        root_page: 72623859790382856,
        next_int: 18446744073709551615,
        num_pages: 32767,
        freelist_page: 2,
        tx_id: 1000000007,
        hash: 99,
    }
}

// Prints that reading and writing refuse the page, and that it stays as it was.
fn try_refused(rt: &impl Print, page: &mut [u8]) -> io::Result<()> {
    hash_line(rt, "page", fnv1a(page))?;
    try_read(rt, page)?;
    try_write(rt, page, sample())
}

// Prints the answers for the page with another hash, for it with another type, and for 103 bytes.
fn refusals(rt: &impl Print, page: [u8; 128]) -> io::Result<()> {
    let mut flipped = page;
    flipped[96] ^= 255;
    try_read(rt, &flipped)?;
    let mut leaf = page;
    leaf[8] = 2;
    try_refused(rt, &mut leaf)?;
    let mut short = [3u8; 103];
    try_refused(rt, &mut short)
}

// Prints the vectors, a meta page written and read back, and the refusals.
fn main(rt: HostRuntime) -> io::Result<()> {
    vectors(&rt)?;
    let mut page = [165u8; 128];
    page[8] = 3;
    try_write(&rt, &mut page, sample())?;
    dump(&rt, &page)?;
    try_read(&rt, &page)?;
    refusals(&rt, page)
}
