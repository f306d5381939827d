// The meta of a page (meta.rs): hashed, read and written.

#![tactic(auto)]

pub mod fnv;

ghost use Rattle.std.specs.Prelude.{◌≡◌, ◌≤◌, length};
ghost use Rattle.field.specs.Run.{put_at};
ghost use Rattle.meta.specs.Meta.{meta_at, hash_of, read_of, meta_bytes, write_of, page_left};

use field::Refusal;
use field::number::{put_u32, put_u64, u32_at, u64_at};
use fnv::{hash_u32, hash_u64};

// Where the page's type stands, the type of a meta page, and where each field of its meta stands.
const TYPE: usize = 8;

const TYPE_META: u8 = 3;

const META_PAGE: usize = 32;

const MAGIC: usize = 36;

const VERSION: usize = 40;

const PADDING: usize = 44;

const PAGESIZE: usize = 48;

const ROOT_PAGE: usize = 56;

const NEXT_INT: usize = 64;

const NUM_PAGES: usize = 72;

const FREELIST_PAGE: usize = 80;

const TX_ID: usize = 88;

const HASH: usize = 96;

const META_END: usize = 104;

// The fields of a meta, in their order in the page.
#[derive(Clone, Copy)]
pub struct Meta {
    pub meta_page: u32,
    pub magic: u32,
    pub version: u32,
    pub pagesize: u64,
    pub root_page: u64,
    pub next_int: u64,
    pub num_pages: u64,
    pub freelist_page: u64,
    pub tx_id: u64,
    pub hash: u64,
}

// The hash of the nine fields before it, each with its highest byte first.
#[inline(never)]
#[tactic(auto, unfolding(crate::specs::Meta::hash_input), using(crate::proofs::HashLaws::hash_append))]
pub fn hash_of(m: Meta) -> u64
    ensures { result ≡ hash_of m }
{
    let h = hash_u32(fnv::BASIS, m.meta_page);
    let h = hash_u32(h, m.magic);
    let h = hash_u32(h, m.version);
    let h = hash_u64(h, m.pagesize);
    let h = hash_u64(h, m.root_page);
    let h = hash_u64(h, m.next_int);
    let h = hash_u64(h, m.num_pages);
    let h = hash_u64(h, m.freelist_page);
    hash_u64(h, m.tx_id)
}

// The fields that stand at offset 32.
#[tactic(auto, unfolding(crate::specs::Meta::meta_at))]
fn meta_at(page: &[u8]) -> Meta
    requires { 104 ≤ length page.now }
    ensures { result ≡ meta_at page.now }
{
    Meta {
        meta_page: u32_at(page, META_PAGE),
        magic: u32_at(page, MAGIC),
        version: u32_at(page, VERSION),
        pagesize: u64_at(page, PAGESIZE),
        root_page: u64_at(page, ROOT_PAGE),
        next_int: u64_at(page, NEXT_INT),
        num_pages: u64_at(page, NUM_PAGES),
        freelist_page: u64_at(page, FREELIST_PAGE),
        tx_id: u64_at(page, TX_ID),
        hash: u64_at(page, HASH),
    }
}

// The meta of the page: `Geometry` for fewer than 104 bytes, `Header` for another type, `Hash` for another hash. It is put into its callers, and
// the hash is not, so that to look for a page size, which refuses up to 8,065 of them, makes no Result of each.
#[inline(always)]
#[tactic(auto, unfolding(crate::specs::Meta::read_of))]
pub fn read_meta(page: &[u8]) -> Result<Meta, Refusal>
    ensures { result ≡ read_of page.now }
{
    if page.len() < META_END {
        return Err(Refusal::Geometry);
    }
    if page[TYPE] != TYPE_META {
        return Err(Refusal::Header);
    }
    let m = meta_at(page);
    if m.hash != hash_of(m) {
        return Err(Refusal::Hash);
    }
    Ok(m)
}

// Puts the fields, zeros for the padding and the hash from offset 32 on. The hash is returned.
fn put_meta(page: &mut [u8], m: Meta) -> u64
    requires { 104 ≤ length page.old }
    ensures { (result ≡ hash_of m) × (page.new ≡ put_at page.old 32 (meta_bytes m)) }
{
    let hash = hash_of(m);
    put_u32(page, META_PAGE, m.meta_page);
    put_u32(page, MAGIC, m.magic);
    put_u32(page, VERSION, m.version);
    put_u32(page, PADDING, 0);
    put_u64(page, PAGESIZE, m.pagesize);
    put_u64(page, ROOT_PAGE, m.root_page);
    put_u64(page, NEXT_INT, m.next_int);
    put_u64(page, NUM_PAGES, m.num_pages);
    put_u64(page, FREELIST_PAGE, m.freelist_page);
    put_u64(page, TX_ID, m.tx_id);
    put_u64(page, HASH, hash);
    hash
}

// Writes the meta with the hash of its fields, which is returned: `Geometry` for fewer than 104 bytes, `Header` for another type.
#[tactic(auto, unfolding(crate::specs::Meta::write_of, crate::specs::Meta::page_left))]
pub fn write_meta(page: &mut [u8], m: Meta) -> Result<u64, Refusal>
    ensures { (result ≡ write_of page.old m) × (page.new ≡ page_left page.old m) }
{
    if page.len() < META_END {
        return Err(Refusal::Geometry);
    }
    if page[TYPE] != TYPE_META {
        return Err(Refusal::Header);
    }
    Ok(put_meta(page, m))
}
