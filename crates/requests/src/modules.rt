// The requests of a module at its own end of the bus: module and m.
ghost use Rattle.std.specs.Prelude.{◌≡◌, ◌%◌, ◌^◌};
ghost use Rattle.requests.specs.Requests.{is_random, is_module_byte, fresh_given, fresh_on, module_flag, module_byte, module_request, event_in, event_request};

use crate::expected::{Expected, Unclear, due};
use crate::list::{bytes_end, to_end};
use crate::other::ending;
use crate::request::{ModuleEvent, Record, Request};
use text::word::{next_word, part};
use udid::Udid;
use words::event::{Event, event_of};
use words::word::{Word, after_word, byte_word, fresh_word, udid_word};

// The top two bits are 11: the identifier has new last bytes after a reset.
fn is_random(u: Udid) -> bool
    ensures { result ≡ is_random u }
{
    u.high / 0x4000_0000_0000_0000 == 3
}

// The last four bytes of an identifier.
fn last_four(u: Udid) -> u32
    ensures { result ≡ u.low % 2 ^ 32 }
{
    (u.low % 0x1_0000_0000) as u32
}

// An odd byte; where the module is fixed, not 255, which is no address.
#[tactic(auto, unfolding(crate::specs::Requests::is_module_byte))]
fn is_module_byte(u: Udid, b: u8) -> bool
    ensures { result ≡ is_module_byte u b }
{
    b % 2 != 0 && !(u.is_fixed() && b == 0xFF)
}

// 8 digits, and no word after them.
#[tactic(auto, unfolding(crate::specs::Requests::fresh_given))]
fn fresh_given(line: &[u8], from: usize) -> Result<u32, Unclear>
    ensures { result ≡ fresh_given line.now from }
{
    let f = due(Expected::Fresh, fresh_word(line, from))?;
    ending(f.value, line, f.to)
}

// The last four bytes after a reset. A random module may have a word that says them; without it they stay.
#[tactic(auto, unfolding(crate::specs::Requests::fresh_on))]
fn fresh(u: Udid, line: &[u8], from: usize) -> Result<u32, Unclear>
    ensures { result ≡ fresh_on u line.now from }
{
    if is_random(u) {
        match after_word(line, from) {
            None => Ok(last_four(u)),
            Some(_) => fresh_given(line, from),
        }
    } else {
        ending(last_four(u), line, from)
    }
}

// FLAG: 0 or 1.
#[tactic(auto, unfolding(crate::specs::Requests::module_flag))]
fn flag(line: &[u8], from: usize) -> Result<Word<u8>, Unclear>
    ensures { result ≡ module_flag line.now from }
{
    let f = due(Expected::Byte, byte_word(line, from))?;
    if f.value > 1 {
        Err(Unclear {
            expected: Expected::Flag,
            place: f.from,
        })
    } else {
        Ok(f)
    }
}

// BYTE: one that a module can have.
#[tactic(auto, unfolding(crate::specs::Requests::module_byte))]
fn byte(u: Udid, line: &[u8], from: usize) -> Result<Word<u8>, Unclear>
    ensures { result ≡ module_byte u line.now from }
{
    let b = due(Expected::Byte, byte_word(line, from))?;
    if is_module_byte(u, b.value) {
        Ok(b)
    } else {
        Err(Unclear {
            expected: Expected::OddByte,
            place: b.from,
        })
    }
}

// module UDID BYTE FLAG, and where the module is random the last four bytes after a reset
#[tactic(auto, unfolding(crate::specs::Requests::module_request))]
pub(crate) fn resume(line: &[u8], from: usize) -> Result<Request, Unclear>
    ensures { result ≡ module_request line.now from }
{
    let u = due(Expected::Udid, udid_word(line, from))?;
    let b = byte(u.value, line, u.to)?;
    let f = flag(line, b.to)?;
    let last = fresh(u.value, line, f.to)?;
    let t = Record {
        udid: u.value,
        byte: b.value,
        flag: f.value,
    };
    Ok(Request::Module(t, last))
}

// What happens to the module, where no word is left after it but the bytes.
fn event_in(e: Event, line: &[u8], from: usize) -> Result<ModuleEvent, Unclear>
    ensures { result ≡ event_in e line.now from }
{
    match e {
        Event::Start => ending(ModuleEvent::Start, line, from),
        Event::Byte => to_end(
            ModuleEvent::Bytes(from),
            line,
            Expected::Byte,
            bytes_end(line, from),
        ),
        Event::Supply => ending(ModuleEvent::Supply, line, from),
        Event::Lost => ending(ModuleEvent::Lost, line, from),
        Event::Stop => ending(ModuleEvent::Stop, line, from),
        Event::State => ending(ModuleEvent::State, line, from),
    }
}

// m start, byte B..., supply, lost, stop or state
#[tactic(auto, unfolding(crate::specs::Requests::event_request))]
pub(crate) fn event(line: &[u8], verb: usize, from: usize) -> Result<Request, Unclear>
    ensures { result ≡ event_request line.now verb from }
{
    let w = next_word(line, from);
    match event_of(part(line, w.from, w.to)) {
        Some(e) => Ok(Request::Event(event_in(e, line, w.to)?, verb)),
        None => Err(Unclear {
            expected: Expected::Event,
            place: w.from,
        }),
    }
}
