// The lookup of a key from a root.

#![tactic(auto)]

pub mod descent;

ghost use Rattle.std.specs.Prelude.{◌≡◌};
ghost use Rattle.view.specs.Fault.{fault_at};
ghost use Rattle.lookup.specs.Descent.{on_page};
ghost use Rattle.lookup.specs.Lookup.{lookup_of, value_in};

use descent::{Step, look_at};
use field::Refusal;
use page::breach::Breach;
use view::image::{geometry_bad, inside};
use view::{Fault, LEVELS, Value};

// The refusal with this cause that names a page, and no element.
pub fn fault(refusal: Refusal, page: usize) -> Fault
    ensures { result ≡ fault_at refusal page 0 0 }
{
    Fault {
        refusal,
        page,
        element: 0,
        common: 0,
    }
}

// A breach that is met on a page, as a refusal.
pub fn on_page(page: usize, breach: Breach) -> Fault
    ensures { result ≡ on_page page breach }
{
    Fault {
        refusal: breach.refusal,
        page,
        element: breach.element,
        common: breach.common,
    }
}

// The entry with this key in the tree of a root, that there is none, or the first breach met on the way.
pub fn lookup(
    image: &[u8],
    p: usize,
    n: usize,
    root: usize,
    key: &[u8],
) -> Result<Option<Value>, Fault>
    ensures { result ≡ lookup_of image.now p n root key.now }
{
    if geometry_bad(image, p, n) {
        return Err(fault(Refusal::Geometry, 0));
    }
    let mut q = root;
    for depth in 0..LEVELS {
        if !inside(n, q) {
            return Err(fault(Refusal::PageNumber, q));
        }
        match look_at(image, p, n, q, depth == 0, key) {
            Ok(Step::Down(child)) => q = child,
            Ok(Step::Found(value)) => return Ok(Some(value)),
            Ok(Step::Absent) => return Ok(None),
            Err(breach) => return Err(on_page(q, breach)),
        }
    }
    Err(fault(Refusal::TooDeep, q))
}

// The value's bytes, as a part of the image; absent or refused gives an empty part.
pub fn lookup_value<'a>(image: &'a [u8], p: usize, n: usize, root: usize, key: &[u8]) -> &'a [u8]
    ensures { result.now ≡ value_in image.now (lookup_of image.now p n root key.now) }
{
    match lookup(image, p, n, root, key) {
        Ok(Some(value)) => &image[value.place..value.place + value.length],
        Ok(None) | Err(_) => &image[0..0],
    }
}
