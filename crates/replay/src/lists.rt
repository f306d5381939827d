// Lists of page numbers and cuts, which a record holds as bytes.
ghost use Rattle.std.specs.Prelude.{◌≤◌, length};

use field::number::{put_u64, u64_at};

// Loads the numbers of these bytes into the list: how many there are, and no more than it holds.
pub fn load(bytes: &[u8], list: &mut [u64]) -> usize
    ensures { result ≤ length list.old }
{
    let n = list.len().min(bytes.len() / 8);
    for i in 0..n {
        list[i] = u64_at(bytes, 8 * i);
    }
    n
}

// Stores so many numbers of the list as bytes, as far as they fit.
pub fn store(list: &[u64], n: usize, bytes: &mut [u8]) {
    let fitting = n.min(list.len()).min(bytes.len() / 8);
    for i in 0..fitting {
        put_u64(bytes, 8 * i, list[i]);
    }
}
