// Prints answers, one to a line.
use meta::fnv::fnv1a;
use node::{Measure, Removed};
use page::{Breach, Leaf, Place};
use split::Written;
use std::io;

// Prints what follows is about.
pub fn title(rt: &impl Print, name: &str) -> io::Result<()> {
    println!(rt; "-- {name}")
}

// Prints a call's name and two numbers.
fn pair(rt: &impl Print, name: &str, a: u64, b: u64) -> io::Result<()> {
    println!(rt; "{name} {a} {b}")
}

// Prints a call's name, that it refused, the number, the element and the common beginning.
pub fn refused(rt: &impl Print, name: &str, b: Breach) -> io::Result<()> {
    let number = u64::from(b.refusal);
    println!(rt; "{name} refused {number} {} {}", b.element, b.common)
}

// Prints the kind of a leaf's entry and where its key, its value and their end stand.
fn leaf(rt: &impl Print, l: Leaf) -> io::Result<()> {
    println!(rt; " {} {} {} {}", l.kind, l.key, l.value, l.end)
}

// Prints what `index` answers.
pub fn indexed(rt: &impl Print, r: Result<Place, Breach>) -> io::Result<()> {
    match r {
        Ok(place) => pair(rt, "index", place.at as u64, u64::from(place.found)),
        Err(b) => refused(rt, "index", b),
    }
}

// Prints what `index_page` answers.
pub fn child(rt: &impl Print, r: Result<usize, Breach>) -> io::Result<()> {
    match r {
        Ok(page) => pair(rt, "index_page", page as u64, 0),
        Err(b) => refused(rt, "index_page", b),
    }
}

// Prints what `entry` answers.
pub fn held(rt: &impl Print, r: Result<Option<Leaf>, Breach>) -> io::Result<()> {
    match r {
        Ok(Some(l)) => {
            print!(rt; "entry")?;
            leaf(rt, l)
        }
        Ok(None) => println!(rt; "entry nothing"),
        Err(b) => refused(rt, "entry", b),
    }
}

// Prints what `size` answers.
pub fn measured(rt: &impl Print, r: Result<Measure, Breach>) -> io::Result<()> {
    match r {
        Ok(size) => pair(rt, "size", size.bytes as u64, size.pages as u64),
        Err(b) => refused(rt, "size", b),
    }
}

// Prints what `needs_merging` answers.
pub fn merging(rt: &impl Print, r: Result<bool, Breach>) -> io::Result<()> {
    match r {
        Ok(true) => println!(rt; "needs_merging yes"),
        Ok(false) => println!(rt; "needs_merging no"),
        Err(b) => refused(rt, "needs_merging", b),
    }
}

// Prints what an edit answers.
pub fn edited(rt: &impl Print, name: &str, r: Result<usize, Breach>) -> io::Result<()> {
    match r {
        Ok(bytes) => println!(rt; "{name} {bytes}"),
        Err(b) => refused(rt, name, b),
    }
}

// Prints what `delete` answers.
pub fn deleted(rt: &impl Print, r: Result<Removed, Breach>) -> io::Result<()> {
    match r {
        Ok(removed) => {
            let bytes = removed.bytes;
            print!(rt; "delete {bytes}")?;
            leaf(rt, removed.leaf)
        }
        Err(b) => refused(rt, "delete", b),
    }
}

// Prints what `split` answers.
pub fn parted(rt: &impl Print, r: Result<usize, Breach>) -> io::Result<()> {
    match r {
        Ok(cuts) => println!(rt; "split {cuts}"),
        Err(b) => refused(rt, "split", b),
    }
}

// Prints what `split_write` answers.
pub fn written(rt: &impl Print, r: Result<Written, Breach>) -> io::Result<()> {
    match r {
        Ok(w) => pair(rt, "split_write", w.bytes as u64, w.pieces as u64),
        Err(b) => refused(rt, "split_write", b),
    }
}

// Prints a hash of what the output holds.
pub fn holds(rt: &impl Print, out: &[u8]) -> io::Result<()> {
    println!(rt; "output {:016x}", fnv1a(out))
}

// Prints the two numbers of a list.
pub fn list(rt: &impl Print, numbers: &[u64; 2]) -> io::Result<()> {
    pair(rt, "list", numbers[0], numbers[1])
}

// Prints the bytes in hexadecimal, sixteen to a line.
pub fn dump(rt: &impl Print, bytes: &[u8]) -> io::Result<()> {
    for (i, byte) in bytes.iter().enumerate() {
        print!(rt; "{byte:02x}")?;
        if i % 16 == 15 {
            println!(rt)?;
        }
    }
    Ok(())
}
