// A cursor's path through a tree of pages, over pages as they are viewed: its types, definitions in specs/ and theorems in proofs/, and no code.

#![tactic(auto)]

// Which way a cursor moves: to the entry after its own, or to the one before.
#[derive(Clone, Copy)]
pub enum Direction {
    Onward,
    Back,
}

// An element of a page.
#[derive(Clone, Copy)]
pub struct Step {
    pub page: usize,
    pub index: usize,
}

// A cursor: the path from the root to an entry. It has `length` steps, and none says that it stands nowhere.
#[derive(Clone, Copy)]
pub struct Cursor {
    pub steps: [Step; 16],
    pub length: usize,
}
