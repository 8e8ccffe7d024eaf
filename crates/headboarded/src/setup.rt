// The requests that set the shelf up: occupied, target and clear.
use crate::numbers::bytes;
use crate::shelf::Shelf;
use answers::shelf::{put_clear, put_no_address, put_occupied, put_target};
use codec_answers::unclear::put_unclear;
use requests::expected::Expected;
use requests::request::Record;
use wire::address::Address;
use writing::page::Page;

// These addresses are occupied too, where all are addresses; and how many are now.
fn occupy(page: &mut Page, shelf: &mut Shelf, addresses: &[u8]) {
    if addresses.iter().any(|a| *a > 127) {
        return put_no_address(page);
    }
    for a in addresses {
        shelf.occupied = shelf.occupied.with(Address(*a));
    }
    put_occupied(page, shelf.occupied.used());
}

// The addresses stand from a place on.
pub(crate) fn occupied(page: &mut Page, shelf: &mut Shelf, text: &[u8], from: usize) {
    let mut buffer = [0u8; 8192];
    occupy(page, shelf, bytes(text, from, &mut buffer));
}

// Another target, where there is room for its record: the identifier, the address byte, the flag.
pub(crate) fn target(
    page: &mut Page,
    shelf: &mut Shelf,
    t: Record,
    place: usize,
    records: &mut [u8],
) {
    let n = shelf.count;
    if n >= records.len() / 18 {
        return put_unclear(page, Expected::Targets, place);
    }
    let at = 18 * n;
    t.udid.put_bytes(records, at);
    records[at + 16] = t.byte;
    records[at + 17] = t.flag;
    shelf.count = n + 1;
    put_target(page, n);
}

// All is as new.
pub(crate) fn clear(page: &mut Page, shelf: &mut Shelf) {
    *shelf = Shelf::new();
    put_clear(page);
}
