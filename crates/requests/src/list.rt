// Lists of numbers in a line. A list ends at the first word that is none of its numbers. No line has more words than characters, so as many
// words are looked at. Rests on crate words.
ghost use Rattle.std.specs.Prelude.{◌≡◌, length};
ghost use Rattle.writing.specs.Written.{Appended};
ghost use Rattle.requests.specs.Lists.{numbers_end, bytes_end, symbols_end, bytes_from, symbols_from};
ghost use Rattle.requests.specs.Requests.{to_end};

use crate::expected::{Expected, Unclear};
use words::word::{byte_word, number_word, symbol_word};

// The place of the first word from a place on that is no number below a limit.
fn numbers_end(line: &[u8], from: usize, limit: u64) -> usize
    ensures { result ≡ numbers_end limit (length line.now) line.now from }
{
    let mut at = from;
    for _ in 0..line.len() {
        match number_word(line, at, limit) {
            Ok(w) => at = w.to,
            Err(place) => return place,
        }
    }
    at
}

// The place of the first word from a place on that is no byte.
pub(crate) fn bytes_end(line: &[u8], from: usize) -> usize
    ensures { result ≡ bytes_end (length line.now) line.now from }
{
    numbers_end(line, from, 256)
}

// The place of the first word from a place on that is no symbol.
pub(crate) fn symbols_end(line: &[u8], from: usize) -> usize
    ensures { result ≡ symbols_end (length line.now) line.now from }
{
    numbers_end(line, from, 65536)
}

// What was read, where the list after it reaches to the end of the line.
pub(crate) fn to_end<T: Copy>(
    read: T,
    line: &[u8],
    expected: Expected,
    end: usize,
) -> Result<T, Unclear>
    ensures { result ≡ to_end read line.now expected end }
{
    if end < line.len() {
        Err(Unclear {
            expected,
            place: end,
        })
    } else {
        Ok(read)
    }
}

// The bytes from a place on, to the front of a buffer, as many as there is room for. Answers how many.
pub fn read_bytes(line: &[u8], from: usize, out: &mut [u8]) -> usize
    ensures { Appended out.old 0 (bytes_from (length out.old) line.now from) out.new result }
{
    let mut n: usize = 0;
    let mut at = from;
    while n < out.len() {
        match byte_word(line, at) {
            Ok(w) => {
                out[n] = w.value;
                n += 1;
                at = w.to;
            }
            Err(_) => return n,
        }
    }
    n
}

// The symbols from a place on, in the same way.
pub fn read_symbols(line: &[u8], from: usize, out: &mut [u16]) -> usize
    ensures { Appended out.old 0 (symbols_from (length out.old) line.now from) out.new result }
{
    let mut n: usize = 0;
    let mut at = from;
    while n < out.len() {
        match symbol_word(line, at) {
            Ok(w) => {
                out[n] = w.value;
                n += 1;
                at = w.to;
            }
            Err(_) => return n,
        }
    }
    n
}
