// The recorded calls, each made with its arguments. Their numbers are those of compare/README.md, "Recorded answers".
use super::lists::{load, store};
use super::record::{BLOCK, KEY, OTHER, argument, call, count, part, room};
use field::run::copy;
use probe::edits::{
    tyvarmos_delete, tyvarmos_insert, tyvarmos_insert_branch, tyvarmos_new_branch,
    tyvarmos_new_leaf, tyvarmos_size,
};
use probe::free::{
    tyvarmos_allocate, tyvarmos_free_init, tyvarmos_free_list, tyvarmos_free_new,
    tyvarmos_free_pages, tyvarmos_free_size, tyvarmos_release,
};
use probe::metas::{tyvarmos_fnv1a, tyvarmos_meta_read, tyvarmos_meta_write};
use probe::search::{tyvarmos_index, tyvarmos_index_page};
use probe::splits::{tyvarmos_split, tyvarmos_split_write};
use shard::{tyvarmos_judge, tyvarmos_lookup, tyvarmos_quick};

// A call on the image.
fn on_image(r: &[u8], image: &[u8], answer: &mut [u8]) -> u64 {
    let p = count(r, 0);
    let n = count(r, 1);
    let root = count(r, 2);
    match call(r) {
        1 => tyvarmos_lookup(image, p, n, root, part(r, KEY), answer),
        23 => tyvarmos_quick(image, p, n, root, part(r, KEY), answer),
        _ => tyvarmos_judge(image, p, n, root, count(r, 3), answer),
    }
}

// A question about a block.
fn on_block(r: &[u8], answer: &mut [u8]) -> u64 {
    let block = part(r, BLOCK);
    let p = count(r, 0);
    match call(r) {
        3 => tyvarmos_index(block, p, part(r, KEY), answer),
        4 => tyvarmos_index_page(block, p, count(r, 1), answer),
        _ => tyvarmos_size(block, p, answer),
    }
}

// A new block.
fn made(r: &[u8], out: &mut [u8], answer: &mut [u8]) -> u64 {
    let p = count(r, 0);
    let id = argument(r, 1);
    if call(r) == 6 {
        return tyvarmos_new_leaf(p, id, out, answer);
    }
    tyvarmos_new_branch(p, id, part(r, KEY), argument(r, 2), out, answer)
}

// An edit of a block.
fn edited(r: &[u8], out: &mut [u8], answer: &mut [u8]) -> u64 {
    let block = part(r, BLOCK);
    let p = count(r, 0);
    let key = part(r, KEY);
    let other = part(r, OTHER);
    match call(r) {
        8 => tyvarmos_insert(block, p, key, argument(r, 1), other, out, answer),
        9 => tyvarmos_delete(block, p, count(r, 1), out, answer),
        _ => tyvarmos_insert_branch(
            block,
            p,
            argument(r, 1),
            other,
            key,
            argument(r, 2),
            out,
            answer,
        ),
    }
}

// The cuts of a block, which stand in the output as bytes in the end.
fn cut(r: &[u8], list: &mut [u64], out: &mut [u8], answer: &mut [u8]) -> u64 {
    let n = room(r, list.len());
    let number = tyvarmos_split(part(r, BLOCK), count(r, 0), &mut list[..n], answer);
    store(list, n, out);
    number
}

// The pieces of a block.
fn parted(r: &[u8], list: &mut [u64], out: &mut [u8], answer: &mut [u8]) -> u64 {
    let n = load(part(r, OTHER), list);
    tyvarmos_split_write(
        part(r, BLOCK),
        count(r, 0),
        count(r, 1),
        &list[..n],
        out,
        answer,
    )
}

// The initial list put into the table.
fn initial(r: &[u8], table: &mut [u64], list: &mut [u64], answer: &mut [u8]) -> u64 {
    let ids = load(part(r, OTHER), list);
    tyvarmos_free_init(table, argument(r, 0), &list[..ids], answer)
}

// The table's list, which stands in the output as bytes in the end.
fn listed(r: &[u8], table: &[u64], list: &mut [u64], out: &mut [u8], answer: &mut [u8]) -> u64 {
    let n = room(r, list.len());
    let number = tyvarmos_free_list(table, argument(r, 0), &mut list[..n], answer);
    store(list, n, out);
    number
}

// A call on the table.
fn on_table(r: &[u8], table: &mut [u64], answer: &mut [u8]) -> u64 {
    let n = argument(r, 0);
    match call(r) {
        13 => tyvarmos_free_new(table, answer),
        15 => tyvarmos_free_pages(
            table,
            n,
            argument(r, 1),
            argument(r, 2),
            argument(r, 3),
            answer,
        ),
        16 => tyvarmos_release(table, n, argument(r, 1), answer),
        17 => tyvarmos_allocate(table, n, argument(r, 1), argument(r, 2), answer),
        _ => tyvarmos_free_size(table, n, answer),
    }
}

// A u32 argument.
fn short(r: &[u8], i: usize) -> u32 {
    (argument(r, i) % 4294967296) as u32
}

// Puts these bytes at the beginning, if they fit.
pub fn put_bytes(bytes: &[u8], out: &mut [u8]) {
    if out.len() < bytes.len() {
        return;
    }
    copy(out, 0, bytes);
}

// A meta written over the page, which is put into the output first.
fn meta_written(r: &[u8], out: &mut [u8], answer: &mut [u8]) -> u64 {
    put_bytes(part(r, BLOCK), out);
    let meta_page = short(r, 0);
    let magic = short(r, 1);
    let version = short(r, 2);
    let pagesize = argument(r, 3);
    let root_page = argument(r, 4);
    let next_int = argument(r, 5);
    let num_pages = argument(r, 6);
    let freelist_page = argument(r, 7);
    let tx_id = argument(r, 8);
    tyvarmos_meta_write(
        out,
        meta_page,
        magic,
        version,
        pagesize,
        root_page,
        next_int,
        num_pages,
        freelist_page,
        tx_id,
        answer,
    )
}

// A call with these bytes of output lent.
fn with_output(r: &[u8], list: &mut [u64], out: &mut [u8], answer: &mut [u8]) -> u64 {
    match call(r) {
        6 | 7 => made(r, out, answer),
        8..=10 => edited(r, out, answer),
        12 => parted(r, list, out, answer),
        _ => meta_written(r, out, answer),
    }
}

// A call with as much output lent as the record says.
fn on_output(r: &[u8], list: &mut [u64], out: &mut [u8], answer: &mut [u8]) -> u64 {
    let n = room(r, out.len());
    with_output(r, list, &mut out[..n], answer)
}

// A call on plain bytes.
fn on_bytes(r: &[u8], answer: &mut [u8]) -> u64 {
    if call(r) == 20 {
        return tyvarmos_meta_read(part(r, BLOCK), answer);
    }
    tyvarmos_fnv1a(part(r, BLOCK), answer)
}

// The number that the recorded call answers.
pub fn made_call(
    r: &[u8],
    image: &[u8],
    table: &mut [u64],
    list: &mut [u64],
    out: &mut [u8],
    answer: &mut [u8],
) -> u64 {
    match call(r) {
        1 | 2 | 23 => on_image(r, image, answer),
        3..=5 => on_block(r, answer),
        11 => cut(r, list, out, answer),
        14 => initial(r, table, list, answer),
        18 => listed(r, table, list, out, answer),
        13..=19 => on_table(r, table, answer),
        20 | 22 => on_bytes(r, answer),
        _ => on_output(r, list, out, answer),
    }
}
