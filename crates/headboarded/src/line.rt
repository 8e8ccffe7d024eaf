// Lines out of the parts in which the input comes. A line may begin in one part and end in another: what there is of it is held in a buffer
// of 16,384 characters. A longer line is refused as a whole, once its end is reached.
use crate::answer::answer;
use crate::print::{flush, room};
use crate::shelf::Shelf;
use codec_answers::unclear::put_unclear;
use requests::expected::Expected;
use std::io::{self, Write};
use text::word::{comment, part};
use writing::page::Page;

// What is carried through the input.
#[derive(Clone, Copy)]
pub(crate) struct Session {
    pub shelf: Shelf,
    // How many characters of the line are held; none where there were more than the buffer has room for.
    pub held: Option<usize>,
}

impl Session {
    pub(crate) fn new() -> Session {
        Session {
            shelf: Shelf::new(),
            held: Some(0),
        }
    }
}

// More characters, added to the line. Answers how many it holds then.
fn gather(held: Option<usize>, chars: &[u8], line: &mut [u8]) -> Option<usize> {
    let from = held?;
    let to = from.checked_add(chars.len())?;
    line.get_mut(from..to)?.copy_from_slice(chars);
    Some(to)
}

// A line that has ended is answered, and the session goes on with an empty one. The comment is cut off first.
fn end_line(
    output: &mut impl Write,
    page: &mut Page,
    s: &mut Session,
    line: &[u8],
    records: &mut [u8],
) -> io::Result<()> {
    room(output, page)?;
    match s.held {
        Some(count) => {
            let whole = part(line, 0, count);
            answer(page, &mut s.shelf, part(whole, 0, comment(whole)), records);
        }
        None => put_unclear(page, Expected::Line, 16384),
    }
    s.held = Some(0);
    Ok(())
}

// The lines that end in a part are answered, and the answers go out; what follows the last of them is held.
pub(crate) fn lines(
    output: &mut impl Write,
    page: &mut Page,
    s: &mut Session,
    chars: &[u8],
    line: &mut [u8],
    records: &mut [u8],
) -> io::Result<()> {
    let mut rest = chars;
    while let Some(end) = rest.iter().position(|c| *c == b'\n') {
        s.held = gather(s.held, &rest[..end], line);
        end_line(output, page, s, line, records)?;
        rest = &rest[end + 1..];
    }
    s.held = gather(s.held, rest, line);
    flush(output, page)
}

// The end of the input ends a line that has begun.
pub(crate) fn end_last(
    output: &mut impl Write,
    page: &mut Page,
    s: &mut Session,
    line: &[u8],
    records: &mut [u8],
) -> io::Result<()> {
    end_line(output, page, s, line, records)?;
    flush(output, page)
}
