// The outermost entry below a page: the first, or going back the last.
ghost use Rattle.std.specs.Prelude.{◌≡◌, ◌-◌, ◌<◌, ◌≤◌, eqb};
ghost use Rattle.path.specs.Path.{outer as outer_of};
ghost use Rattle.view.specs.Geometry.{SoundSizes};
ghost use Rattle.view.specs.View.{view_of};
ghost use Rattle.cursor.specs.Cursor.{path_of, moved_of};
ghost use Rattle.cursor.specs.Working.{edge_of, Clear, under};

use super::sight::{Sight, child_at, entry_at, meet};
use super::{Moved, refuse};
use field::Refusal;
use lookup::{fault, on_page};
use path::{Cursor, Direction, Step};
use view::LEVELS;

// The index of the outermost of `n` elements.
fn edge(way: Direction, n: usize) -> usize
    requires { 0 < n }
    ensures { (result ≡ edge_of way n) × (result < n) }
{
    match way {
        Direction::Onward => 0,
        Direction::Back => n - 1,
    }
}

// The outermost entry below page `page`, to which the path `made` leads; where there is none, the cursor that was given.
pub fn outer(
    image: &[u8],
    p: usize,
    n: usize,
    page: usize,
    way: Direction,
    made: Cursor,
    given: Cursor,
) -> Moved
    requires { SoundSizes image.now p n × Clear made.steps made.length × (made.length ≤ 16) }
    ensures { result ≡ moved_of given (under (path_of made)
        (outer_of n (view_of image.now p n) way (16 - made.length) (eqb made.length 0) page)) }
{
    let mut steps = made.steps;
    let mut q = page;
    for level in made.length..LEVELS {
        match meet(image, p, n, q, level == 0) {
            Ok(Sight::Branch(count)) => {
                let i = edge(way, count);
                steps[level] = Step { page: q, index: i };
                q = child_at(image, p, n, q, i);
            }
            Ok(Sight::Leaf(count)) => {
                if count == 0 {
                    return Moved {
                        cursor: given,
                        stand: Ok(None),
                    };
                }
                let i = edge(way, count);
                steps[level] = Step { page: q, index: i };
                let cursor = Cursor {
                    steps,
                    length: level + 1,
                };
                return Moved {
                    cursor,
                    stand: Ok(Some(entry_at(image, p, n, q, i))),
                };
            }
            Err(breach) => return refuse(given, on_page(q, breach)),
        }
    }
    refuse(given, fault(Refusal::TooDeep, q))
}
