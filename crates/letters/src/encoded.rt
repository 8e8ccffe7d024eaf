// The answer of encode, with letters.
ghost use Rattle.std.specs.Prelude.{◌≡◌};
ghost use Rattle.writing.specs.Pages.{with_text};
ghost use Rattle.letters.specs.Letters.{trace_letters, encoded_letters};

use crate::letter::put_letters;
use encode::EncodeError;
use pieces::piece::put_line;
use text::word::part;
use writing::page::Page;

// A trace.
// Kept: a twin of put_trace in codec_answers. They differ in the call between, and a trait for it is longer than both.
fn put_trace(page: &mut Page, s: &[u16])
    ensures { page.new ≡ with_text page.old (trace_letters s.now) }
{
    page.put(b"0 trace");
    put_letters(page, s);
    page.put(b"\n");
}

// What the encoder answered: the trace that stands at the front of a buffer, or the number of a refusal.
pub fn put_encoded_letters(page: &mut Page, e: Result<usize, EncodeError>, trace: &[u16])
    ensures { page.new ≡ with_text page.old (encoded_letters e trace.now) }
{
    match e {
        Ok(n) => put_trace(page, part(trace, 0, n)),
        Err(EncodeError::Forbidden) => put_line(page, b"1"),
        Err(EncodeError::OutputTooShort) => put_line(page, b"2"),
    }
}
