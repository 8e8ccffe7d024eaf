// The controller's table, in the layout of i2cdetect: 8 rows of 16 addresses. -- is free, UU was in use when the pass began (listed or
// occupied), XX is claimed by two, LL is left by a module that is gone, and an address stands where a target is bound.
ghost use Rattle.std.specs.Prelude.{◌≡◌, ◌++◌};
ghost use Rattle.writing.specs.Pages.{with_text};
ghost use Rattle.lookups.specs.Grids.{free_of, cell_of, cell_text, cells_text, row_text, rows_text, grid_text};

use arp::lookup::Found;
use arp::state::Controller;
use pieces::piece::put_hex;
use pool::Pool;
use wire::address::Address;
use writing::page::Page;

// What the table shows at an address.
#[derive(Clone, Copy)]
pub(crate) enum Cell {
    // Nobody is there.
    Free,
    // It was in use when the pass began.
    InUse,
    // Two claim it.
    Claimed,
    // The module that was bound there is gone.
    Left,
    // A target is bound there.
    Bound,
}

// An address at which nobody is bound.
fn free_cell(occupied: Pool, a: Address) -> Cell
    ensures { result ≡ free_of occupied a.0 }
{
    if Pool::starting(occupied).has(a) {
        Cell::InUse
    } else {
        Cell::Free
    }
}

#[tactic(auto, using(pieces::specs::PieceLaws::pieces), unfolding(crate::specs::Grids::cell_of))]
fn cell_of(c: Controller, a: Address) -> Cell
    ensures { result ≡ cell_of c a.0 }
{
    match c.lookup(a) {
        Found::Bound(_) => Cell::Bound,
        Found::Two => Cell::Claimed,
        Found::Left => Cell::Left,
        Found::Nobody | Found::NoAddress => free_cell(c.occupied, a),
    }
}

// One address, after a blank.
fn put_cell(page: &mut Page, cell: Cell, a: u8)
    ensures { page.new ≡ with_text page.old (cell_text cell a) }
{
    match cell {
        Cell::Free => page.put(b" --"),
        Cell::InUse => page.put(b" UU"),
        Cell::Claimed => page.put(b" XX"),
        Cell::Left => page.put(b" LL"),
        Cell::Bound => put_hex(page, b" ", a),
    }
}

// The 16 addresses from this one on, below 128.
fn put_cells(page: &mut Page, c: Controller, first: u8)
    ensures { page.new ≡ with_text page.old (cells_text c first) }
{
    for k in 0..16 {
        let a = first % 128 + k;
        put_cell(page, cell_of(c, Address(a)), a);
    }
}

// A row: its first address, and the 16 of it.
fn put_row(page: &mut Page, c: Controller, first: u8)
    ensures { page.new ≡ with_text page.old (row_text c first) }
{
    put_hex(page, b"", first);
    page.put(b":");
    put_cells(page, c, first);
    page.put(b"\n");
}

fn put_rows(page: &mut Page, c: Controller)
    ensures { page.new ≡ with_text page.old (rows_text c) }
{
    for row in 0..8 {
        put_row(page, c, 16 * row);
    }
}

// The whole table.
#[tactic(auto, using(pieces::specs::PieceLaws::pieces), unfolding(crate::specs::Grids::grid_text))]
pub fn put_grid(page: &mut Page, c: Controller)
    ensures { page.new ≡ with_text page.old (grid_text c) }
{
    page.put(b"0 grid\n     0  1  2  3  4  5  6  7  8  9  a  b  c  d  e  f\n");
    put_rows(page, c);
}
