// A page of an image as the walk and the lookup view it, and what both answer with.

#![tactic(auto)]

pub mod image;

use field::Refusal;

// The most levels that a tree has.
pub const LEVELS: usize = 16;

// A refusal: its cause, the page and element that it names, and the length of the common beginning of the two keys that it speaks of; 0 where there is none.
#[derive(Clone, Copy)]
pub struct Fault {
    pub refusal: Refusal,
    pub page: usize,
    pub element: usize,
    pub common: usize,
}

// An entry's kind, and the place in the image and the length of its value.
#[derive(Clone, Copy)]
pub struct Value {
    pub kind: u8,
    pub place: usize,
    pub length: usize,
}
