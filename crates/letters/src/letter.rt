// A symbol as text, and symbols, each after a blank.
#![tactic(auto, using(pieces::specs::PieceLaws::pieces), unfolding(crate::specs::Letters::sign_text, crate::specs::Letters::letter_text))]

ghost use Rattle.std.specs.Prelude.{◌≡◌};
ghost use Rattle.writing.specs.Pages.{with_text};
ghost use Rattle.letters.specs.Letters.{sign_text, letter_text, letters_text};

use wire::symbol::{ACK, NACK, START, STOP, is_byte};
use writing::page::{Case, Page};

// A symbol that is no byte.
fn put_sign(page: &mut Page, x: u16)
    ensures { page.new ≡ with_text page.old (sign_text x) }
{
    match x {
        START => page.put(b"S"),
        STOP => page.put(b"P"),
        ACK => page.put(b"A"),
        NACK => page.put(b"N"),
        _ => page.put_decimal(u64::from(x)),
    }
}

// A symbol: a byte as two digits, S, P, A or N; a number that is no symbol in decimal.
pub fn put_letter(page: &mut Page, x: u16)
    ensures { page.new ≡ with_text page.old (letter_text x) }
{
    if is_byte(x) {
        page.put_digits(Case::Upper, (x % 256) as u8);
    } else {
        put_sign(page, x);
    }
}

// Symbols, each after a blank.
pub fn put_letters(page: &mut Page, s: &[u16])
    ensures { page.new ≡ with_text page.old (letters_text s.now) }
{
    for x in s {
        page.put(b" ");
        put_letter(page, *x);
    }
}
