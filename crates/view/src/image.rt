// An image: its geometry, and the pages and blocks in it.
ghost use Rattle.std.specs.Prelude.{◌≡◌, false, ◌+◌, ◌*◌, ◌≤◌, ◌<◌, length, drop};
ghost use Rattle.page.specs.Layout.{overflow_of};
ghost use Rattle.page.specs.PageRules.{block_of};
ghost use Rattle.walk.specs.Tree.{inside as inside_of};
ghost use Rattle.view.specs.Geometry.{SoundSizes};
ghost use Rattle.view.specs.Geometry.{geometry_bad};

use field::sizes::{count_allowed, size_allowed};
use page::layout::overflow;

// Whether the page size, the page count or the image's length is refused.
pub fn geometry_bad(image: &[u8], p: usize, n: usize) -> bool
    ensures { result ≡ geometry_bad image.now p n }
{
    if !size_allowed(p) {
        return true;
    }
    if !count_allowed(n) {
        return true;
    }
    image.len() < n * p
}

// Whether a page number is one of 2 to n - 1.
pub fn inside(n: usize, q: usize) -> bool
    ensures { result ≡ inside_of n q }
{
    if q < 2 {
        return false;
    }
    q < n
}

// The bytes that start with page `q`.
pub fn from_page(image: &[u8], p: usize, n: usize, q: usize) -> &[u8]
    requires { SoundSizes image.now p n × (q < n) }
    ensures { (result.now ≡ drop (q * p) image.now) × (p ≤ length result.now) }
{
    let at = q * p;
    &image[at..]
}

// The block of page `q`, which ends within the image.
pub fn block(image: &[u8], p: usize, n: usize, q: usize) -> &[u8]
    requires { SoundSizes image.now p n × (q < n) × (q + overflow_of (drop (q * p) image.now) < n) }
    ensures { (result.now ≡ block_of image.now p q) × (p ≤ length result.now) }
{
    let at = q * p;
    let more = overflow(from_page(image, p, n, q));
    let end = at + (more + 1) * p;
    &image[at..end]
}
