// The answers of lookup and of gone.
ghost use Rattle.std.specs.Prelude.{◌≡◌};
ghost use Rattle.writing.specs.Pages.{with_text};
ghost use Rattle.lookups.specs.FoundLines.{found_text, gone_text};

use arp::lookup::Found;
use pieces::piece::{put_line, udid_line};
use writing::page::Page;

// Who is bound at an address.
pub fn put_found(page: &mut Page, f: Found)
    ensures { page.new ≡ with_text page.old (found_text f) }
{
    match f {
        Found::Bound(u) => udid_line(page, b"0 udid ", u),
        Found::Nobody => put_line(page, b"15"),
        Found::Two => put_line(page, b"16"),
        Found::Left => put_line(page, b"20"),
        Found::NoAddress => put_line(page, b"1"),
    }
}

// The answer to a report that a module is gone, by what a lookup found just before it. A refusal is answered as that lookup.
pub fn put_gone(page: &mut Page, f: Found)
    ensures { page.new ≡ with_text page.old (gone_text f) }
{
    match f {
        Found::Bound(_) => put_line(page, b"0 gone"),
        _ => put_found(page, f),
    }
}
