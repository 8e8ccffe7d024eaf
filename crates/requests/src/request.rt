// A line of the console as a request. A list of numbers is given by the place where it begins: read_bytes and read_symbols of module list
// read it. Rests on crate words.
ghost use Rattle.std.specs.Prelude.{◌≡◌};
ghost use Rattle.requests.specs.Requests.{request_of, request_in};

use crate::encoding::{decode, encode, pec};
use crate::expected::{Expected, Unclear};
use crate::modules::{event, resume};
use crate::other::{choose, ending, gone, lookup, occupied, run, step, target};
use text::word::{next_word, part};
use udid::Udid;
use words::verb::{Verb, verb_of};

// A protocol's number, and whether there is a PEC.
#[derive(Clone, Copy, PartialEq, Eq)]
pub struct Head {
    pub protocol: u8,
    pub pec: bool,
}

// The fields of a transaction beside its data.
#[derive(Clone, Copy, PartialEq, Eq)]
pub struct Fields {
    pub address: u8,
    pub direction: u8,
    pub command: u8,
}

// A target record: the identifier, the address byte and the flag.
#[derive(Clone, Copy)]
pub struct Record {
    pub udid: Udid,
    pub byte: u8,
    pub flag: u8,
}

// What happens to a module at its own end of the bus, or what is asked of it there.
#[derive(Clone, Copy, PartialEq, Eq)]
pub enum ModuleEvent {
    Start,
    // It receives the bytes from a place on.
    Bytes(usize),
    // The next byte of a read.
    Supply,
    // It has lost arbitration.
    Lost,
    Stop,
    // What it is now.
    State,
}

// What a line asks for.
#[derive(Clone, Copy)]
pub enum Request {
    // A line of no word.
    // Kept: that nothing is asked is one of the answers to what a line asks for, and the console matches it beside the others.
    Nothing,
    // The packet error code of the bytes from a place on.
    Pec(usize),
    // A trace, with the places of the bytes that are sent and of those that are received.
    Encode(Head, Fields, usize, usize),
    // What the symbols from a place on say.
    Decode(Head, usize),
    // The addresses from a place on are in use.
    Occupied(usize),
    // Another target, and the place of its words.
    Target(Record, usize),
    Clear,
    // The model run, with the last pick that it begins with; 127 is never picked.
    Run(u8),
    Start,
    // The controller hears the symbols from a place on.
    Step(usize),
    // The target of an address.
    Lookup(u8),
    // The module at an address is gone.
    Gone(u8),
    Grid,
    // A module in place of any other: its record, and the last four bytes that its identifier takes at a reset.
    Module(Record, u32),
    // Something happens to the module; and the place of the verb.
    Event(ModuleEvent, usize),
    // The controller hears the symbols from a place on, and an address that it chooses waits.
    Choose(usize),
    // The choice that waits is sent.
    Issue,
    // The choice that waits is dropped, and the pass with it.
    Decline,
}

// The request of a verb, with the words from a place on.
fn request_in(v: Verb, line: &[u8], verb: usize, from: usize) -> Result<Request, Unclear>
    ensures { result ≡ request_in v line.now verb from }
{
    match v {
        Verb::Pec => pec(line, from),
        Verb::Encode => encode(line, from),
        Verb::Decode => decode(line, from),
        Verb::Occupied => occupied(line, from),
        Verb::Target => target(line, from),
        Verb::Clear => ending(Request::Clear, line, from),
        Verb::Run => run(line, from),
        Verb::Start => ending(Request::Start, line, from),
        Verb::Step => step(line, from),
        Verb::Lookup => lookup(line, from),
        Verb::Gone => gone(line, from),
        Verb::Grid => ending(Request::Grid, line, from),
        Verb::Module => resume(line, from),
        Verb::M => event(line, verb, from),
        Verb::Choose => choose(line, from),
        Verb::Issue => ending(Request::Issue, line, from),
        Verb::Decline => ending(Request::Decline, line, from),
    }
}

// What a line means, which has no comment any more: what it asks for, or what was expected at which place.
#[tactic(auto, unfolding(crate::specs::Requests::request_of))]
pub fn read_request(line: &[u8]) -> Result<Request, Unclear>
    ensures { result ≡ request_of line.now }
{
    let w = next_word(line, 0);
    if w.to <= w.from {
        return Ok(Request::Nothing);
    }
    match verb_of(part(line, w.from, w.to)) {
        Some(v) => request_in(v, line, w.from, w.to),
        None => Err(Unclear {
            expected: Expected::Verb,
            place: w.from,
        }),
    }
}
