// What each of the scope's numbers means, in a few words.
#![tactic(auto, using(writing::specs::PageLaws::pages), unfolding(crate::specs::Meanings::meanings, crate::specs::Meanings::meaning, crate::specs::Meanings::has_words, crate::specs::Meanings::noted))]

ghost use Rattle.std.specs.Prelude.{◌≡◌};
ghost use Rattle.writing.specs.Pages.{with_text};
ghost use Rattle.meanings.specs.Meanings.{meaning, has_words, noted};

use writing::page::Page;

// The words of a number. 0 has none, and no number above 21 has. Kept: a match on numbers, for the number comes as text (number_of).
pub fn put_meaning(page: &mut Page, n: u64)
    ensures { page.new ≡ with_text page.old (meaning n) }
{
    match n {
        0 => {}
        1 => page.put(b"a value that is not allowed"),
        2 => page.put(b"a buffer that is too short"),
        3 => page.put(b"a number that is no symbol"),
        4 => page.put(b"the trace ends early"),
        5 => page.put(b"a symbol out of its place"),
        6 => page.put(b"no ACK from the target"),
        7 => page.put(b"PEC differs"),
        8 => page.put(b"symbols after STOP"),
        9 => page.put(b"a target list of a wrong length"),
        10 => page.put(b"a malformed record"),
        11 => page.put(b"a repeated UDID"),
        12 => page.put(b"a fixed target where none may stand"),
        13 => page.put(b"no free address"),
        14 => page.put(b"pass abandoned"),
        15 => page.put(b"nobody is bound there"),
        16 => page.put(b"claimed by two"),
        17 => page.put(b"ACK for NACK, or NACK for ACK, from the controller"),
        18 => page.put(b"a wrong address or direction"),
        19 => page.put(b"a count that is not allowed"),
        20 => page.put(b"left by a module that is gone"),
        21 => page.put(b"nothing is outstanding"),
        22.. => {}
    }
}

// The number has words: it is 1 to 21.
fn has_words(n: u64) -> bool
    ensures { result ≡ has_words n }
{
    matches!(n, 1..=21)
}

// The words of a number after a colon, or nothing where it has none.
pub fn put_noted(page: &mut Page, n: u64)
    ensures { page.new ≡ with_text page.old (noted n) }
{
    if has_words(n) {
        page.put(b": ");
        put_meaning(page, n);
    }
}
