// The answers of pec and encode.
ghost use Rattle.std.specs.Prelude.{◌≡◌, ◌++◌};
ghost use Rattle.writing.specs.Pages.{with_text};
ghost use Rattle.codec_answers.specs.CodecLines.{pec_text, trace_text, encoded_text};

use encode::EncodeError;
use pieces::list::put_symbols;
use pieces::piece::{hex_line, put_line};
use text::word::part;
use writing::page::Page;

// A packet error code.
pub fn put_pec(page: &mut Page, b: u8)
    ensures { page.new ≡ with_text page.old (pec_text b) }
{
    hex_line(page, b"0 pec 0x", b);
}

// A trace.
fn put_trace(page: &mut Page, s: &[u16])
    ensures { page.new ≡ with_text page.old (trace_text s.now) }
{
    page.put(b"0 trace");
    put_symbols(page, s);
    page.put(b"\n");
}

// What the encoder answered: the trace that stands at the front of a buffer, or the number of a refusal.
pub fn put_encoded(page: &mut Page, e: Result<usize, EncodeError>, trace: &[u16])
    ensures { page.new ≡ with_text page.old (encoded_text e trace.now) }
{
    match e {
        Ok(n) => put_trace(page, part(trace, 0, n)),
        Err(EncodeError::Forbidden) => put_line(page, b"1"),
        Err(EncodeError::OutputTooShort) => put_line(page, b"2"),
    }
}
