// The entry beside that of a path.
ghost use Rattle.std.specs.Prelude.{◌≡◌, true, ◌<◌, ◌≤◌, Ok};
ghost use Rattle.path.specs.Path.{follow as follow_path, neighbour as neighbour_of};
ghost use Rattle.view.specs.Geometry.{SoundSizes};
ghost use Rattle.view.specs.View.{view_of};
ghost use Rattle.cursor.specs.Cursor.{path_of, moved_of};
ghost use Rattle.cursor.specs.Working.{has_beside, beside_of, followed_of, root_of, PathPage, turn_of};

use super::Moved;
use super::outer::outer;
use super::sight::{child_at, count_at, entry_at};
use super::steps::turned;
use path::{Cursor, Direction, Step};

// Whether there is an element beside element `i` of `n`.
fn has_beside(way: Direction, n: usize, i: usize) -> bool
    requires { i < n }
    ensures { result ≡ has_beside way n i }
{
    match way {
        Direction::Onward => i + 1 < n,
        Direction::Back => 0 < i,
    }
}

// Its index.
fn beside(way: Direction, n: usize, i: usize) -> usize
    requires { (i < n) × (has_beside way n i ≡ true) }
    ensures { (result ≡ beside_of way i) × (result < n) }
{
    match way {
        Direction::Onward => i + 1,
        Direction::Back => i - 1,
    }
}

// The outermost entry below element `i` of the page on level `k` of a path: in its leaf the entry itself.
fn turn(
    image: &[u8],
    p: usize,
    n: usize,
    way: Direction,
    c: Cursor,
    k: usize,
    i: usize,
    given: Cursor,
) -> Moved
    requires { SoundSizes image.now p n × (k < c.length) × (c.length ≤ 16) × PathPage image.now p n c k i }
    ensures { result ≡ moved_of given (turn_of image.now p n way c k i) }
{
    let steps = c.steps;
    let s = steps[k];
    let q = s.page;
    let made = turned(c, k, Step { page: q, index: i });
    if k + 1 < c.length {
        let child = child_at(image, p, n, q, i);
        return outer(image, p, n, child, way, made, given);
    }
    Moved {
        cursor: made,
        stand: Ok(Some(entry_at(image, p, n, q, i))),
    }
}

// The entry beside that of a path that stands in the tree; where there is none, the cursor that was given.
pub fn neighbour(
    image: &[u8],
    p: usize,
    n: usize,
    way: Direction,
    c: Cursor,
    given: Cursor,
) -> Moved
    requires { SoundSizes image.now p n × (c.length ≤ 16)
        × (followed_of (follow_path n (view_of image.now p n) 16 true (root_of c) (path_of c)) ≡ Ok tt) }
    ensures { result ≡ moved_of given (neighbour_of n (view_of image.now p n) way 16 true (root_of c) (path_of c)) }
{
    let steps = c.steps;
    for k in (0..c.length).rev() {
        let s = steps[k];
        let count = count_at(image, p, n, s.page);
        if has_beside(way, count, s.index) {
            let i = beside(way, count, s.index);
            return turn(image, p, n, way, c, k, i, given);
        }
    }
    Moved {
        cursor: given,
        stand: Ok(None),
    }
}
