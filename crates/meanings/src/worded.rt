// An answer with words. Its first line is what stands before its first line feed; the number is what that line's first word says.
#![tactic(auto, using(writing::specs::PageLaws::pages), unfolding(crate::specs::Worded::first_line, crate::specs::Worded::rest, crate::specs::Worded::number_in, crate::specs::Worded::number, crate::specs::Worded::headed, crate::specs::Worded::worded))]

ghost use Rattle.std.specs.Prelude.{◌≡◌};
ghost use Rattle.writing.specs.Pages.{with_text};
ghost use Rattle.meanings.specs.Worded.{first_line, rest, number_in, number, headed, worded};

use crate::meaning::put_noted;
use digits::number::read_number;
use text::word::{line_end, next_word, part};
use writing::page::Page;

// The first line of an answer, without its line feed.
fn first_line(answer: &[u8]) -> &[u8]
    ensures { result.now ≡ first_line answer.now }
{
    part(answer, 0, line_end(answer, 0))
}

// What stands after the first line: its line feed, and all other lines.
fn rest_of(answer: &[u8]) -> &[u8]
    ensures { result.now ≡ rest answer.now }
{
    part(answer, line_end(answer, 0), answer.len())
}

// The number that the first word of a line says, or 0 where that is no number.
fn number_in(line: &[u8]) -> u64
    ensures { result ≡ number_in line.now }
{
    let w = next_word(line, 0);
    read_number(part(line, w.from, w.to)).unwrap_or(0)
}

// The number that an answer begins with, or 0 where it begins with none.
pub fn number_of(answer: &[u8]) -> u64
    ensures { result ≡ number answer.now }
{
    number_in(first_line(answer))
}

// The first line with the words of its number, without its line feed.
pub fn put_headed(page: &mut Page, answer: &[u8])
    ensures { page.new ≡ with_text page.old (headed answer.now) }
{
    page.put(first_line(answer));
    put_noted(page, number_of(answer));
}

// What stands after the first line.
pub fn put_rest(page: &mut Page, answer: &[u8])
    ensures { page.new ≡ with_text page.old (rest answer.now) }
{
    page.put(rest_of(answer));
}

// An answer with words.
pub fn put_worded(page: &mut Page, answer: &[u8])
    ensures { page.new ≡ with_text page.old (worded answer.now) }
{
    put_headed(page, answer);
    put_rest(page, answer);
}
