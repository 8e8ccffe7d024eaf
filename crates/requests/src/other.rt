// The requests of the shelf and of the controller.
ghost use Rattle.std.specs.Prelude.{◌≡◌};
ghost use Rattle.requests.specs.Requests.{occupied_request, last_at, lone_byte, run_request, step_request, choose_request, lookup_request, gone_request, target_request, ended};

use crate::expected::{Expected, Unclear, due};
use crate::list::{bytes_end, symbols_end, to_end};
use crate::request::{Record, Request};
use words::word::{Word, after_word, byte_word, udid_word};

// The last pick of a controller that has never picked.
const NEVER_PICKED: u8 = 127;

// What was read, where no word is left after it.
#[tactic(auto, unfolding(crate::specs::Requests::ended))]
pub(crate) fn ending<T: Copy>(read: T, line: &[u8], from: usize) -> Result<T, Unclear>
    ensures { result ≡ ended read line.now from }
{
    match after_word(line, from) {
        None => Ok(read),
        Some(place) => Err(Unclear {
            expected: Expected::End,
            place,
        }),
    }
}

// occupied A...
#[tactic(auto, unfolding(crate::specs::Requests::occupied_request))]
pub(crate) fn occupied(line: &[u8], from: usize) -> Result<Request, Unclear>
    ensures { result ≡ occupied_request line.now from }
{
    to_end(
        Request::Occupied(from),
        line,
        Expected::Byte,
        bytes_end(line, from),
    )
}

// LAST, a byte; where no word is left, never picked.
#[tactic(auto, unfolding(crate::specs::Requests::last_at))]
fn last_pick(line: &[u8], from: usize) -> Result<Word<u8>, usize>
    ensures { result ≡ last_at line.now from }
{
    match after_word(line, from) {
        None => Ok(Word {
            value: NEVER_PICKED,
            from,
            to: from,
        }),
        Some(_) => byte_word(line, from),
    }
}

// A byte, where no word is left after it.
fn lone_byte(line: &[u8], word: Result<Word<u8>, usize>) -> Result<u8, Unclear>
    ensures { result ≡ lone_byte line.now word }
{
    let b = due(Expected::Byte, word)?;
    ending(b.value, line, b.to)
}

// run, or run LAST
#[tactic(auto, unfolding(crate::specs::Requests::run_request))]
pub(crate) fn run(line: &[u8], from: usize) -> Result<Request, Unclear>
    ensures { result ≡ run_request line.now from }
{
    Ok(Request::Run(lone_byte(line, last_pick(line, from))?))
}

// step SYMBOL...
#[tactic(auto, unfolding(crate::specs::Requests::step_request))]
pub(crate) fn step(line: &[u8], from: usize) -> Result<Request, Unclear>
    ensures { result ≡ step_request line.now from }
{
    to_end(
        Request::Step(from),
        line,
        Expected::Symbol,
        symbols_end(line, from),
    )
}

// choose SYMBOL...
#[tactic(auto, unfolding(crate::specs::Requests::choose_request))]
pub(crate) fn choose(line: &[u8], from: usize) -> Result<Request, Unclear>
    ensures { result ≡ choose_request line.now from }
{
    to_end(
        Request::Choose(from),
        line,
        Expected::Symbol,
        symbols_end(line, from),
    )
}

// lookup A
#[tactic(auto, unfolding(crate::specs::Requests::lookup_request))]
pub(crate) fn lookup(line: &[u8], from: usize) -> Result<Request, Unclear>
    ensures { result ≡ lookup_request line.now from }
{
    Ok(Request::Lookup(lone_byte(line, byte_word(line, from))?))
}

// gone A
#[tactic(auto, unfolding(crate::specs::Requests::gone_request))]
pub(crate) fn gone(line: &[u8], from: usize) -> Result<Request, Unclear>
    ensures { result ≡ gone_request line.now from }
{
    Ok(Request::Gone(lone_byte(line, byte_word(line, from))?))
}

// target UDID BYTE FLAG
#[tactic(auto, unfolding(crate::specs::Requests::target_request))]
pub(crate) fn target(line: &[u8], from: usize) -> Result<Request, Unclear>
    ensures { result ≡ target_request line.now from }
{
    let u = due(Expected::Udid, udid_word(line, from))?;
    let b = due(Expected::Byte, byte_word(line, u.to))?;
    let f = due(Expected::Byte, byte_word(line, b.to))?;
    let t = Record {
        udid: u.value,
        byte: b.value,
        flag: f.value,
    };
    ending(Request::Target(t, u.from), line, f.to)
}
