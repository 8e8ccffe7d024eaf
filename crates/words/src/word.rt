// One word of a line, read as what is due there. Rests on crates text, digits and names.
ghost use Rattle.std.specs.Prelude.{◌≡◌, ◌<◌, IfOk};
ghost use Rattle.words.specs.Said.{said, number_at, byte_at, symbol_at, udid_at, fresh_at, protocol_at, pec_said, pec_at, mark_at, rest_at};

use digits::number::{read_halves, read_number, read_quarter};
use names::protocol_named;
use text::word::{LineWord, next_word, part, same};
use udid::Udid;

// What a word says, with the place where it begins and the place after it.
#[derive(Clone, Copy, PartialEq, Eq)]
pub struct Word<T> {
    pub value: T,
    pub from: usize,
    pub to: usize,
}

// The place after a mark, the end of the line, or the place of another word.
// Kept: the end of the line is neither a mark nor refused, and its place is where an empty list stands.
#[derive(Clone, Copy, PartialEq, Eq)]
pub enum MarkWord {
    Mark(usize),
    Over(usize),
    Another(usize),
}

// The word with the value that it says, or the place of a word that says none.
fn said<T: Copy>(w: LineWord, value: Option<T>) -> Result<Word<T>, usize>
    ensures { result ≡ said w value }
{
    match value {
        Some(value) => Ok(Word {
            value,
            from: w.from,
            to: w.to,
        }),
        None => Err(w.from),
    }
}

// The next word as a number below a limit.
#[tactic(auto, unfolding(crate::specs::Said::number_at))]
pub fn number_word(line: &[u8], at: usize, limit: u64) -> Result<Word<u64>, usize>
    ensures is { result ≡ number_at limit line.now at }
    ensures below { IfOk result (λ w. w.value < limit) }
{
    let w = next_word(line, at);
    match read_number(part(line, w.from, w.to)) {
        Ok(v) if v < limit => said(w, Some(v)),
        _ => said(w, None),
    }
}

// The next word as a byte.
pub fn byte_word(line: &[u8], at: usize) -> Result<Word<u8>, usize>
    ensures { result ≡ byte_at line.now at }
{
    let w = number_word(line, at, 256)?;
    Ok(Word {
        value: w.value as u8,
        from: w.from,
        to: w.to,
    })
}

// The next word as a symbol.
pub fn symbol_word(line: &[u8], at: usize) -> Result<Word<u16>, usize>
    ensures { result ≡ symbol_at line.now at }
{
    let w = number_word(line, at, 65536)?;
    Ok(Word {
        value: w.value as u16,
        from: w.from,
        to: w.to,
    })
}

// The next word as an identifier.
#[tactic(auto, unfolding(crate::specs::Said::udid_at))]
pub fn udid_word(line: &[u8], at: usize) -> Result<Word<Udid>, usize>
    ensures { result ≡ udid_at line.now at }
{
    let w = next_word(line, at);
    match read_halves(part(line, w.from, w.to)) {
        Some((high, low)) => said(w, Some(Udid { high, low })),
        None => said(w, None),
    }
}

// The next word as the last four bytes of an identifier.
#[tactic(auto, unfolding(crate::specs::Said::fresh_at))]
pub fn fresh_word(line: &[u8], at: usize) -> Result<Word<u32>, usize>
    ensures { result ≡ fresh_at line.now at }
{
    let w = next_word(line, at);
    said(w, read_quarter(part(line, w.from, w.to)))
}

// The next word as a protocol, by its name or its number. A number that no protocol has is passed on.
#[tactic(auto, unfolding(crate::specs::Said::protocol_at))]
pub fn protocol_word(line: &[u8], at: usize) -> Result<Word<u8>, usize>
    ensures { result ≡ protocol_at line.now at }
{
    let w = next_word(line, at);
    match protocol_named(part(line, w.from, w.to)) {
        Some(named) => said(w, Some(named)),
        None => byte_word(line, at),
    }
}

// p, with PEC, or -, without.
fn pec_said(s: &[u8]) -> Option<bool>
    ensures { result ≡ pec_said s.now }
{
    match s {
        b"p" => Some(true),
        b"-" => Some(false),
        _ => None,
    }
}

// The next word as p or -.
#[tactic(auto, unfolding(crate::specs::Said::pec_at))]
pub fn pec_word(line: &[u8], at: usize) -> Result<Word<bool>, usize>
    ensures { result ≡ pec_at line.now at }
{
    let w = next_word(line, at);
    said(w, pec_said(part(line, w.from, w.to)))
}

// The next word is this mark.
#[tactic(auto, unfolding(crate::specs::Said::mark_at))]
pub fn mark_word(line: &[u8], at: usize, mark: &[u8]) -> MarkWord
    ensures { result ≡ mark_at line.now at mark.now }
{
    let w = next_word(line, at);
    if same(part(line, w.from, w.to), mark) {
        MarkWord::Mark(w.to)
    } else if w.from < line.len() {
        MarkWord::Another(w.from)
    } else {
        MarkWord::Over(w.from)
    }
}

// The place of another word in the line, if one stands there.
#[tactic(auto, unfolding(crate::specs::Said::rest_at))]
pub fn after_word(line: &[u8], at: usize) -> Option<usize>
    ensures { result ≡ rest_at line.now at }
{
    let w = next_word(line, at);
    if w.from < line.len() {
        Some(w.from)
    } else {
        None
    }
}
