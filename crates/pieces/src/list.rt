// Lists of bytes and of symbols, each number after a blank.
ghost use Rattle.std.specs.Prelude.{◌≡◌};
ghost use Rattle.writing.specs.Pages.{with_text};
ghost use Rattle.pieces.specs.Pieces.{bytes_text, symbols_text};

use crate::piece::{put_hex, put_number};
use writing::page::Page;

// Bytes, each after a blank and 0x.
pub fn put_bytes(page: &mut Page, s: &[u8])
    ensures { page.new ≡ with_text page.old (bytes_text s.now) }
{
    for b in s {
        put_hex(page, b" 0x", *b);
    }
}

// Symbols, each after a blank.
pub fn put_symbols(page: &mut Page, s: &[u16])
    ensures { page.new ≡ with_text page.old (symbols_text s.now) }
{
    for x in s {
        put_number(page, b" ", u64::from(*x));
    }
}
