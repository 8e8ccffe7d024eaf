// The output: answers are written on a page, and go out when it has no room for another.
use std::io::{self, Write};
use writing::page::Page;

// The longest answer is that of m with bytes: five characters for each of the 8,189 that a line has room for.
const LONGEST: usize = 40960;

// What stands on the page goes out, and the page is empty.
pub(crate) fn flush(output: &mut impl Write, page: &mut Page) -> io::Result<()> {
    let end = page.at;
    if end <= page.out.len() {
        output.write_all(&page.out[..end])?;
    }
    page.at = 0;
    Ok(())
}

// Room for an answer: where there is none, all before it goes out.
pub(crate) fn room(output: &mut impl Write, page: &mut Page) -> io::Result<()> {
    if page.out.len().saturating_sub(page.at) >= LONGEST {
        return Ok(());
    }
    flush(output, page)
}
