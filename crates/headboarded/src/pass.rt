// The requests to the controller: start, step, choose, issue, decline, lookup, gone and grid.
use crate::numbers::symbols;
use crate::shelf::Shelf;
use answers::command::put_command;
use arp::state::{Controller, Stepped};
use lookups::found::{put_found, put_gone};
use lookups::grid::put_grid;
use wire::address::Address;
use writing::page::Page;

// What a step left is kept, and what it handed out is told.
fn told(page: &mut Page, shelf: &mut Shelf, next: Stepped) {
    shelf.controller = next.state;
    put_command(page, next.command);
}

// A controller with the addresses that are occupied now begins a pass. Its last pick is that of the controller before it.
pub(crate) fn start(page: &mut Page, shelf: &mut Shelf) {
    let c = Controller::new(shelf.occupied, shelf.controller.picked);
    told(page, shelf, c.start());
}

// The controller hears the symbols from a place on.
pub(crate) fn step(page: &mut Page, shelf: &mut Shelf, text: &[u8], from: usize) {
    let mut buffer = [0u16; 8192];
    let next = shelf.controller.step(symbols(text, from, &mut buffer));
    told(page, shelf, next);
}

// The same, but an address that the controller chooses waits.
pub(crate) fn choose(page: &mut Page, shelf: &mut Shelf, text: &[u8], from: usize) {
    let mut buffer = [0u16; 8192];
    let next = shelf.controller.choose(symbols(text, from, &mut buffer));
    told(page, shelf, next);
}

// The choice that waits is sent.
pub(crate) fn issue(page: &mut Page, shelf: &mut Shelf) {
    let next = shelf.controller.issue();
    told(page, shelf, next);
}

// The choice that waits is dropped, and the pass with it.
pub(crate) fn decline(page: &mut Page, shelf: &mut Shelf) {
    let next = shelf.controller.decline();
    told(page, shelf, next);
}

// Who is bound at an address.
pub(crate) fn lookup(page: &mut Page, shelf: &Shelf, a: u8) {
    put_found(page, shelf.controller.lookup(Address(a)));
}

// The module at an address is gone: what the report left is kept, and it is answered.
pub(crate) fn gone(page: &mut Page, shelf: &mut Shelf, a: u8) {
    let r = shelf.controller.report_gone(Address(a));
    shelf.controller = r.state;
    put_gone(page, r.found);
}

// The controller's table.
pub(crate) fn table(page: &mut Page, shelf: &Shelf) {
    put_grid(page, shelf.controller);
}
