// A set of page numbers below 32,768: the mark of a page stands in word page / 64.
ghost use Rattle.std.specs.Prelude.{◌≡◌, ◌+◌, ◌-◌, ◌*◌, ◌/◌, ◌%◌, ◌^◌, ◌≤◌, ◌<◌, min, eqb, length};
ghost use Rattle.std.specs.Int.Bits.{bit_or};
ghost use Rattle.field.specs.Marks.{marked_in, no_marks, count, with_marks, lowest_marked};

// The set with no page in it.
pub fn no_marks() -> [u64; 512]
    ensures { result ≡ no_marks }
{
    [0u64; 512]
}

// Whether the page is marked, by the word that its mark stands in.
pub fn is_marked(word: u64, page: u64) -> bool
    ensures { result ≡ marked_in word page }
{
    (word >> (page % 64)) % 2 == 1
}

// The end of those of the pages from `at` up to `to` whose marks stand in one word.
fn word_end(at: usize, to: usize) -> usize
    requires { (at < to) × (to ≤ 32768) }
    ensures { result ≡ min to ((at / 64 + 1) * 64) }
{
    let border = (at / 64 + 1) * 64;
    if to < border { to } else { border }
}

// Whether none of the `k` pages from `page` on is marked, by the word that their marks stand in.
fn clear_in(word: u64, page: u64, k: u64) -> bool
    requires { (0 < k) × (page % 64 + k ≤ 64) }
    ensures { result ≡ eqb (word / 2 ^ (page % 64) % 2 ^ k) 0 }
{
    (word >> (page % 64)) << (64 - k) == 0
}

// That word with these pages marked.
fn with_marks_in(word: u64, page: u64, k: u64) -> u64
    requires { (0 < k) × (page % 64 + k ≤ 64) }
    ensures { result ≡ bit_or word ((2 ^ k - 1) * 2 ^ (page % 64)) }
{
    word | ((u64::MAX >> (64 - k)) << (page % 64))
}

// The lowest marked page from `from` up to `to`, looked for one by one; `to` where none is.
fn lowest_from(marks: &[u64], from: usize, to: usize) -> usize
    requires { (length marks.now ≡ 512) × (from ≤ to) × (to ≤ 32768) }
    ensures { result ≡ lowest_marked marks.now from (to - from) }
{
    for at in from..to {
        if is_marked(marks[at / 64], at as u64) {
            return at;
        }
    }
    to
}

// The lowest marked page from `from` up to `to`, looked for by words; `to` where none is.
pub fn lowest_marked(marks: &[u64], from: usize, to: usize) -> usize
    requires { (length marks.now ≡ 512) × (from ≤ to) × (to ≤ 32768) }
    ensures { result ≡ lowest_marked marks.now from (to - from) }
{
    let mut at = from;
    // No count: each turn goes on where a word ends.
    while at < to {
        let end = word_end(at, to);
        if !clear_in(marks[at / 64], at as u64, (end - at) as u64) {
            return lowest_from(marks, at, to);
        }
        at = end;
    }
    to
}

// Marks the pages from `from` up to `to`, by words.
pub fn mark_pages(marks: &mut [u64], from: usize, to: usize)
    requires { (length marks.old ≡ 512) × (from ≤ to) × (to ≤ 32768) }
    ensures { marks.new ≡ with_marks marks.old from (to - from) }
{
    let mut at = from;
    // No count: each turn goes on where a word ends.
    while at < to {
        let end = word_end(at, to);
        let word = marks[at / 64];
        marks[at / 64] = with_marks_in(word, at as u64, (end - at) as u64);
        at = end;
    }
}

// How many pages are marked: the ones of all words.
pub fn count_marks(marks: [u64; 512]) -> u64
    ensures { result ≡ count marks }
{
    let mut n = 0;
    for word in marks {
        n += u64::from(word.count_ones());
    }
    n
}
