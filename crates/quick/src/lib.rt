// Login's lookup: of each page it looks at the header, and at the elements that halving comes by.

#![tactic(auto)]

mod branch_halving;
mod glance;
pub mod halving;
mod leaf_halving;

ghost use Rattle.std.specs.Prelude.{◌≡◌};
ghost use Rattle.lookup.specs.Lookup.{value_in};
ghost use Rattle.quick.specs.Quick.{quick_of};

use field::Refusal;
use glance::page_says;
use lookup::descent::Step;
use lookup::{fault, on_page};
use view::image::{geometry_bad, inside};
use view::{Fault, LEVELS, Value};

// The entry with this key in the tree of a root, that there is none, or the first breach met on the way.
pub fn quick(
    image: &[u8],
    p: usize,
    n: usize,
    root: usize,
    key: &[u8],
) -> Result<Option<Value>, Fault>
    ensures { result ≡ quick_of image.now p n root key.now }
{
    if geometry_bad(image, p, n) {
        return Err(fault(Refusal::Geometry, 0));
    }
    let mut q = root;
    for depth in 0..LEVELS {
        if !inside(n, q) {
            return Err(fault(Refusal::PageNumber, q));
        }
        match page_says(image, p, n, q, depth == 0, key) {
            Ok(Step::Down(child)) => q = child,
            Ok(Step::Found(value)) => return Ok(Some(value)),
            Ok(Step::Absent) => return Ok(None),
            Err(breach) => return Err(on_page(q, breach)),
        }
    }
    Err(fault(Refusal::TooDeep, q))
}

// The value's bytes, as a part of the image; absent or refused gives an empty part.
pub fn quick_value<'a>(image: &'a [u8], p: usize, n: usize, root: usize, key: &[u8]) -> &'a [u8]
    ensures { result.now ≡ value_in image.now (quick_of image.now p n root key.now) }
{
    match quick(image, p, n, root, key) {
        Ok(Some(value)) => &image[value.place..value.place + value.length],
        Ok(None) | Err(_) => &image[0..0],
    }
}
