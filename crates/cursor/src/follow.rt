// A lent path, judged from the root down.
ghost use Rattle.std.specs.Prelude.{◌≡◌, true, ◌≤◌};
ghost use Rattle.path.specs.Path.{follow as follow_path};
ghost use Rattle.view.specs.Geometry.{SoundSizes};
ghost use Rattle.view.specs.View.{view_of};
ghost use Rattle.cursor.specs.Cursor.{path_of};
ghost use Rattle.cursor.specs.Working.{followed_of};

use super::sight::{Sight, child_at, meet};
use field::Refusal;
use lookup::{fault, on_page};
use path::Cursor;
use view::Fault;

// Whether the path of a cursor leads from the root to an entry, each page on it judged; or the first refusal on the way.
pub fn follow(image: &[u8], p: usize, n: usize, root: usize, c: Cursor) -> Result<(), Fault>
    requires { SoundSizes image.now p n × (c.length ≤ 16) }
    ensures { result ≡ followed_of (follow_path n (view_of image.now p n) 16 true root (path_of c)) }
{
    let steps = c.steps;
    let length = c.length;
    let mut q = root;
    for k in 0..length {
        let s = steps[k];
        if s.page != q {
            return Err(fault(Refusal::Argument, 0));
        }
        match meet(image, p, n, q, k == 0) {
            Ok(Sight::Branch(count)) => {
                if count <= s.index {
                    return Err(fault(Refusal::Argument, 0));
                }
                q = child_at(image, p, n, q, s.index);
            }
            Ok(Sight::Leaf(count)) => {
                if count <= s.index {
                    return Err(fault(Refusal::Argument, 0));
                }
                if k + 1 < length {
                    return Err(fault(Refusal::Argument, 0));
                }
                return Ok(());
            }
            Err(breach) => return Err(on_page(q, breach)),
        }
    }
    Err(fault(Refusal::Argument, 0))
}
