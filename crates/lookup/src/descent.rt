// One page of a lookup.
ghost use Rattle.std.specs.Prelude.{◌≡◌, true, false, ◌&&◌, ◌+◌, ◌^◌, ◌<◌, length, Ok};
ghost use Rattle.page.specs.Layout.{count_of};
ghost use Rattle.page.specs.PageRules.{SoundBlock};
ghost use Rattle.walk.specs.Tree.{leaf as leaf_view, child_for};
ghost use Rattle.view.specs.Geometry.{SoundSizes};
ghost use Rattle.view.specs.View.{row, child_item, value_item, view_of};
ghost use Rattle.lookup.specs.Step.{step_of};

use field::Refusal;
use page::breach::Breach;
use page::layout::{child, count, is_leaf};
use page::rules::{check, header_bad};
use page::search::{find, leaf_at};
use view::Value;
use view::image::{block, from_page};

// What a page says of a key: the child to go to, the entry, or that there is none.
#[derive(Clone, Copy)]
pub enum Step {
    Down(usize),
    Found(Value),
    Absent,
}

// The child of a sound branch to which a key leads.
fn child_for(b: &[u8], key: &[u8]) -> usize
    requires { SoundBlock false false b.now }
    ensures { result ≡ child_for (row (child_item b.now) (count_of b.now) 0) key.now }
{
    let at = find(b, false, count(b), key).at;
    child(b, at)
}

// What a sound leaf that starts at byte `start` of the image says of a key.
fn seek(b: &[u8], start: usize, key: &[u8]) -> Step
    requires { SoundBlock true true b.now × (start + length b.now < 2 ^ 64) }
    ensures { Ok result ≡ step_of (leaf_view (row (value_item start b.now) (count_of b.now) 0)) key.now }
{
    let place = find(b, true, count(b), key);
    if place.found {
        let e = leaf_at(b, place.at);
        let length = e.end - e.value;
        return Step::Found(Value {
            kind: e.kind,
            place: start + e.value,
            length,
        });
    }
    Step::Absent
}

// What page `q`, as the root or not, says of a key, or its first breach.
pub fn look_at(
    image: &[u8],
    p: usize,
    n: usize,
    q: usize,
    top: bool,
    key: &[u8],
) -> Result<Step, Breach>
    requires { SoundSizes image.now p n × (q < n) }
    ensures { result ≡ step_of (view_of image.now p n q top) key.now }
{
    if header_bad(from_page(image, p, n, q), n, q) {
        return Err(Breach::from(Refusal::Header));
    }
    let b = block(image, p, n, q);
    if is_leaf(b) {
        check(b, true, top)?;
        return Ok(seek(b, q * p, key));
    }
    check(b, false, false)?;
    Ok(Step::Down(child_for(b, key)))
}
