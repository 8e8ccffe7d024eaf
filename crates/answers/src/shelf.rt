// The answers of occupied, target and clear.
ghost use Rattle.std.specs.Prelude.{◌≡◌};
ghost use Rattle.writing.specs.Pages.{with_text};
ghost use Rattle.answers.specs.Lines.{occupied_text, no_address_text, target_text, clear_text};

use pieces::piece::{number_line, put_line};
use writing::page::Page;

// How many addresses are occupied.
pub fn put_occupied(page: &mut Page, n: u32)
    ensures { page.new ≡ with_text page.old (occupied_text n) }
{
    number_line(page, b"0 occupied ", u64::from(n));
}

// A number above 127 among addresses.
pub fn put_no_address(page: &mut Page)
    ensures { page.new ≡ with_text page.old no_address_text }
{
    put_line(page, b"1");
}

// The index of a new target record.
pub fn put_target(page: &mut Page, i: usize)
    ensures { page.new ≡ with_text page.old (target_text i) }
{
    number_line(page, b"0 target ", i as u64);
}

// All is as new.
pub fn put_clear(page: &mut Page)
    ensures { page.new ≡ with_text page.old clear_text }
{
    put_line(page, b"0 clear");
}
