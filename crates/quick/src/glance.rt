// One page of a quick lookup.
ghost use Rattle.std.specs.Prelude.{◌≡◌, true, false, cond, Err, ◌+◌, ◌^◌, ◌≤◌, ◌<◌, length};
ghost use Rattle.page.specs.Layout.{element_at, value_end};
ghost use Rattle.page.specs.PageRules.{table_bad, breach};
ghost use Rattle.view.specs.Geometry.{SoundSizes};
ghost use Rattle.view.specs.View.{value_item};
ghost use Rattle.quick.specs.Halving.{halves_of};
ghost use Rattle.quick.specs.Quick.{says_of, page_says};

use super::branch_halving::halve_branch;
use super::leaf_halving::halve_leaf;
use field::Refusal;
use lookup::descent::Step;
use page::breach::Breach;
use page::layout::{child, count, is_leaf, key_at, key_size, kind, value_size};
use page::rules::{header_bad, table_bad};
use view::Value;
use view::image::{block, from_page};

// What is told of element `i` of a leaf that starts at byte `start` of the image.
fn value_at(b: &[u8], start: usize, i: usize) -> Value
    requires { (element_at true i + 32 ≤ length b.now) × (value_end true b.now i ≤ length b.now) × (start + length b.now < 2 ^ 64) }
    ensures { result ≡ (value_item start b.now i).value }
{
    let at = key_at(b, true, i) + key_size(b, true, i);
    Value {
        kind: kind(b, i),
        place: start + at,
        length: value_size(b, i),
    }
}

// The breach of rule 6 by an element.
fn element_breach(element: usize) -> Breach
    ensures { result ≡ breach Refusal.Element element 0 }
{
    Breach {
        refusal: Refusal::Element,
        element,
        common: 0,
    }
}

// What a leaf that starts at byte `start` of the image, as the root or not, says of a key, or its first breach.
fn leaf_says(b: &[u8], start: usize, top: bool, key: &[u8]) -> Result<Step, Breach>
    requires { (32 ≤ length b.now) × (start + length b.now < 2 ^ 64) }
    ensures { result ≡ cond (table_bad true top b.now) (Err (breach Refusal.Table 0 0))
        (says_of true start b.now (halves_of true b.now key.now)) }
{
    if table_bad(b, true, top) {
        return Err(Breach::from(Refusal::Table));
    }
    let place = halve_leaf(b, count(b), key).map_err(element_breach)?;
    if place.found {
        return Ok(Step::Found(value_at(b, start, place.at)));
    }
    Ok(Step::Absent)
}

// What a branch says of a key, or its first breach.
fn branch_says(b: &[u8], key: &[u8]) -> Result<Step, Breach>
    requires { 32 ≤ length b.now }
    ensures { result ≡ cond (table_bad false false b.now) (Err (breach Refusal.Table 0 0))
        (says_of false 0 b.now (halves_of false b.now key.now)) }
{
    if table_bad(b, false, false) {
        return Err(Breach::from(Refusal::Table));
    }
    let place = halve_branch(b, count(b), key).map_err(element_breach)?;
    Ok(Step::Down(child(b, place.at)))
}

// What page `q`, as the root or not, says of a key, or its first breach.
pub fn page_says(
    image: &[u8],
    p: usize,
    n: usize,
    q: usize,
    top: bool,
    key: &[u8],
) -> Result<Step, Breach>
    requires { SoundSizes image.now p n × (q < n) }
    ensures { result ≡ page_says image.now p n key.now q top }
{
    if header_bad(from_page(image, p, n, q), n, q) {
        return Err(Breach::from(Refusal::Header));
    }
    let b = block(image, p, n, q);
    if is_leaf(b) {
        return leaf_says(b, q * p, top, key);
    }
    branch_says(b, key)
}
