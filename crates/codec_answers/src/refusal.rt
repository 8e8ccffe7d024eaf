// A refusal of the decoder without a line feed: its number, and where.
ghost use Rattle.std.specs.Prelude.{◌≡◌};
ghost use Rattle.writing.specs.Pages.{with_text};
ghost use Rattle.codec_answers.specs.Refusals.{where_text, refusal_text};

use pieces::piece::put_number;
use scan::answer::{Refusal, Refused, refusal_number};
use writing::page::Page;

// What stands after a refusal's number: nothing where the trace was not read; else which byte was not acknowledged, or the place.
fn put_where(page: &mut Page, e: Refused)
    ensures { page.new ≡ with_text page.old (where_text e.why e.place) }
{
    match e.why {
        Refusal::Forbidden | Refusal::BufferTooShort => {}
        Refusal::NotAcknowledged => put_number(page, b" byte ", e.place as u64),
        _ => put_number(page, b" place ", e.place as u64),
    }
}

// A refusal: its number, and where.
pub fn put_refusal(page: &mut Page, e: Refused)
    ensures { page.new ≡ with_text page.old (refusal_text e.why e.place) }
{
    page.put_decimal(u64::from(refusal_number(e.why)));
    put_where(page, e);
}
