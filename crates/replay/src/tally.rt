// Counts of answers: for each call how many were the same, then how many differ; the sums stand last.

// How many calls there are: 0 stands for a record that cannot be read.
pub const CALLS: usize = 24;

// Where a call's count stands, or, for one more than the last call, the sum's.
fn place(call: usize, differs: bool) -> usize {
    if CALLS < call {
        return 0;
    }
    if differs {
        return 2 * call + 1;
    }
    2 * call
}

// A call's count.
pub fn counted(counts: &[u64], call: usize, differs: bool) -> u64 {
    let i = place(call, differs);
    if counts.len() <= i {
        return 0;
    }
    counts[i]
}

// Counts one more at a place.
fn one_more(counts: &mut [u64], i: usize) {
    if counts.len() <= i {
        return;
    }
    counts[i] = counts[i].wrapping_add(1);
}

// Counts an answer of a call.
pub fn count(counts: &mut [u64], call: usize, differs: bool) {
    one_more(counts, place(call, differs));
    one_more(counts, place(CALLS, differs));
}
