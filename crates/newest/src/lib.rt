// The newest meta of an image (db.rs): with the page size given or found, the newer of the two meta pages that count.

#![tactic(auto)]

ghost use Rattle.std.specs.Prelude.{◌≡◌, drop};
ghost use Rattle.meta.specs.Meta.{read_of};
ghost use Rattle.newest.specs.Newest.{counts, newer as newer_of, newest_at, own_size, names_itself, lowest_size, size_found, no_size, newest_of};

use field::Refusal;
use field::sizes::size_allowed;
use meta::{Meta, read_meta};

// The page sizes allowed: the lowest, the step from one to the next, and how many there are.
const LEAST_SIZE: usize = 1024;

const SIZE_STEP: usize = 8;

const SIZES: usize = 8065;

// The newest meta, and the page that it was taken from, 0 or 1.
#[derive(Clone, Copy)]
pub struct Newest {
    pub page: usize,
    pub meta: Meta,
}

// The meta at byte `at` of the image.
#[tactic(auto, unfolding(meta::specs::Meta::read_of))]
fn read_at(image: &[u8], at: usize) -> Result<Meta, Refusal>
    ensures { result ≡ read_of (drop at image.now) }
{
    let page = image.get(at..).ok_or(Refusal::Geometry)?;
    read_meta(page)
}

// The meta at byte `at`, if it counts at the page size `p`: `Argument` where it names another.
#[inline(always)]
fn counted(image: &[u8], at: usize, p: usize) -> Result<Meta, Refusal>
    ensures { result ≡ counts p (read_of (drop at image.now)) }
{
    let meta = read_at(image, at)?;
    if meta.pagesize != p as u64 {
        return Err(Refusal::Argument);
    }
    Ok(meta)
}

// The newer of two metas that count, the second at a tie; the one that counts; or the first one's refusal.
fn newer(first: Result<Meta, Refusal>, second: Result<Meta, Refusal>) -> Result<Newest, Refusal>
    ensures { result ≡ newer_of first second }
{
    match (first, second) {
        (Ok(a), Ok(b)) => {
            if a.tx_id > b.tx_id {
                return Ok(Newest { page: 0, meta: a });
            }
            Ok(Newest { page: 1, meta: b })
        }
        (Ok(a), Err(_)) => Ok(Newest { page: 0, meta: a }),
        (Err(_), Ok(b)) => Ok(Newest { page: 1, meta: b }),
        (Err(refusal), Err(_)) => Err(refusal),
    }
}

// The newest meta at the page size `p`: `Geometry` for an image shorter than two pages.
#[tactic(auto, unfolding(crate::specs::Newest::newest_at))]
fn newest_at(image: &[u8], p: usize) -> Result<Newest, Refusal>
    ensures { result ≡ newest_at image.now p }
{
    if image.len() / 2 < p {
        return Err(Refusal::Geometry);
    }
    newer(counted(image, 0, p), counted(image, p, p))
}

// The page size that a meta names, if that is allowed.
fn own_size(read: Result<Meta, Refusal>) -> Option<usize>
    ensures { result ≡ own_size read }
{
    let size = read.ok()?.pagesize as usize;
    size_allowed(size).then_some(size)
}

// Whether the meta at byte `p` names the page size `p`.
#[tactic(auto, unfolding(crate::specs::Newest::names_itself))]
fn names_itself(image: &[u8], p: usize) -> bool
    ensures { result ≡ names_itself image.now p }
{
    counted(image, p, p).is_ok()
}

// The lowest allowed page size that the meta at its byte names.
fn lowest_size(image: &[u8]) -> Option<usize>
    ensures { result ≡ lowest_size image.now 8065 1024 }
{
    (0..SIZES)
        .map(|i| LEAST_SIZE + SIZE_STEP * i)
        .find(|p| names_itself(image, *p))
}

// The page size that page 0 names, or else the lowest that the meta at its byte names.
#[tactic(auto, unfolding(crate::specs::Newest::size_found))]
fn size_found(image: &[u8]) -> Option<usize>
    ensures { result ≡ size_found image.now }
{
    own_size(read_meta(image)).or_else(|| lowest_size(image))
}

// Why a page 0 gives no newest meta where no page size is found.
fn no_size(read: Result<Meta, Refusal>) -> Refusal
    ensures { result ≡ no_size read }
{
    read.err().unwrap_or(Refusal::Argument)
}

// The newest meta of the image: a page size of 0 is found, and one that is not allowed is `Geometry`.
#[tactic(auto, unfolding(crate::specs::Newest::newest_of))]
pub fn newest_meta(image: &[u8], p: usize) -> Result<Newest, Refusal>
    ensures { result ≡ newest_of image.now p }
{
    if p == 0 {
        let Some(found) = size_found(image) else {
            return Err(no_size(read_meta(image)));
        };
        return newest_at(image, found);
    }
    if !size_allowed(p) {
        return Err(Refusal::Geometry);
    }
    newest_at(image, p)
}
