// A cursor over the entries of a tree, in key order.

#![tactic(auto)]

pub mod beside;
pub mod follow;
pub mod outer;
pub mod sight;
pub mod steps;

ghost use Rattle.std.specs.Prelude.{◌≡◌};
ghost use Rattle.path.specs.Path.{refused};
ghost use Rattle.cursor.specs.Cursor.{moved_of};

use path::Cursor;
use view::Fault;

// An entry: its kind, and where in the image its key and its value lie, the key from `key` to `value` and the value from `value` to `end`.
#[derive(Clone, Copy)]
pub struct Entry {
    pub kind: u8,
    pub key: usize,
    pub value: usize,
    pub end: usize,
}

// What a call answers: the entry that it came to, that there is none, or a refusal; and the cursor there.
#[derive(Clone, Copy)]
pub struct Moved {
    pub cursor: Cursor,
    pub stand: Result<Option<Entry>, Fault>,
}

// A refusal, and the cursor that was given.
pub fn refuse(given: Cursor, fault: Fault) -> Moved
    ensures { result ≡ moved_of given (refused fault.refusal fault.page fault.element fault.common) }
{
    Moved {
        cursor: given,
        stand: Err(fault),
    }
}
