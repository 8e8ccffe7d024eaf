// The line for what is no request: a question mark, the column, and what was expected there. A column is a place of the line plus 1.
ghost use Rattle.std.specs.Prelude.{◌≡◌};
ghost use Rattle.writing.specs.Pages.{with_text};
ghost use Rattle.codec_answers.specs.CodecLines.{expected_text, unclear_text};

use pieces::piece::put_number;
use requests::expected::Expected;
use writing::page::Page;

// What was expected, to the end of the line.
fn put_expected(page: &mut Page, e: Expected)
    ensures { page.new ≡ with_text page.old (expected_text e) }
{
    match e {
        Expected::Verb => page.put(b" expected a verb\n"),
        Expected::Byte => page.put(b" expected a byte, 0 to 255\n"),
        Expected::Symbol => page.put(b" expected a symbol, 0 to 65535\n"),
        Expected::Protocol => page.put(b" expected a protocol, by number or name\n"),
        Expected::Pec => page.put(b" expected p or -\n"),
        Expected::Sent => page.put(b" expected w\n"),
        Expected::Received => page.put(b" expected a byte, 0 to 255, or r\n"),
        Expected::Udid => page.put(b" expected a UDID of 32 hexadecimal digits\n"),
        Expected::End => page.put(b" expected the end of the line\n"),
        Expected::Targets => page.put(b" expected at most 120 targets\n"),
        Expected::OddByte => page.put(b" expected an odd byte, below 255 for a fixed module\n"),
        Expected::Flag => page.put(b" expected 0 or 1\n"),
        Expected::Fresh => page.put(b" expected 8 hexadecimal digits\n"),
        Expected::Event => page.put(b" expected start, byte, supply, lost, stop or state\n"),
        Expected::Module => page.put(b" expected a module, which the verb module makes\n"),
        Expected::Line => page.put(b" expected a line of at most 16384 characters\n"),
    }
}

// The refusal of a line at a place.
#[tactic(auto, using(pieces::specs::PieceLaws::pieces), unfolding(crate::specs::CodecLines::unclear_text))]
pub fn put_unclear(page: &mut Page, e: Expected, place: usize)
    ensures { page.new ≡ with_text page.old (unclear_text e place) }
{
    put_number(page, b"? ", (place as u64).wrapping_add(1));
    put_expected(page, e);
}
