// A cursor's steps.
ghost use Rattle.std.specs.Prelude.{◌≡◌, [], ◌∷◌, ◌++◌, ◌<◌, ◌≤◌, take};
ghost use Rattle.cursor.specs.Cursor.{cursor_of, no_steps};

use path::{Cursor, Step};

// A cursor of no steps.
pub fn no_steps() -> Cursor
    ensures { result ≡ no_steps }
{
    Cursor {
        steps: [Step { page: 0, index: 0 }; 16],
        length: 0,
    }
}

// The first `k` steps of a cursor, and then this one.
pub fn turned(c: Cursor, k: usize, s: Step) -> Cursor
    requires { k < 16 }
    ensures { result ≡ cursor_of (take k c.steps ++ (s ∷ [])) }
{
    let mut steps = [Step { page: 0, index: 0 }; 16];
    steps[..k].copy_from_slice(&c.steps[..k]);
    steps[k] = s;
    Cursor {
        steps,
        length: k + 1,
    }
}
