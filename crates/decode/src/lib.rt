// The decoder at its entry: the refusals 1 and 2, the answer for the trace, and the data into the two lent buffers. Rests on scan.
//
// The trace is read whole before a byte of the buffers is written, so that a refusal changes neither.
#![tactic(auto)]

ghost use Rattle.std.specs.Prelude.{◌≡◌, ℕ, ◌+◌, ◌*◌, ◌≤◌, ◌<◌, length, drop};
ghost use Rattle.lists.specs.Onto.{onto};
ghost use Rattle.trace.specs.Sane.{Sane};
ghost use Rattle.scan.specs.Handed.{lows};
ghost use Rattle.decode.specs.Outcome.{short, OutcomeBy, Outcome};

use crate::place::{received_place, sent_place};
use scan::answer::{Decoded, Refusal, Refused};
use scan::whole::decode_by;
use step::next::Rules;
use trace::protocol::{is_forbidden, shape_of};
use trace::shape::Shape;

mod place;

// Every second symbol from a place on, n of them, as bytes, to the front of a buffer.
// Kept: by index, as the place may lie past the trace where n is 0, so that a slice from there would need a test of its own.
fn copy_data(buf: &mut [u8], tr: &[u16], from: usize, n: usize)
    requires { (n ≤ length buf.old) × ((j : ℕ) → j < n → from + 2 * j < length tr.now) }
    ensures { buf.new ≡ onto (lows n (drop from tr.now)) buf.old }
{
    for j in 0..n {
        buf[j] = (tr[from + 2 * j] % 256) as u8;
    }
}

// 2: a buffer of under 255 bytes.
fn is_short(s: usize, r: usize) -> bool
    ensures { result ≡ short s r }
{
    s < 255 || r < 255
}

// The answer for a trace of a shape. On 0 the data sent stand at the front of one buffer and the data received at the front of the other,
// the rest of each as it was; on any other answer neither is changed.
// The caller says whether the protocol, or a PEC of it, is forbidden. Each table of protocols has its entry: it gives the shape and that answer.
fn decode_into(
    number: u8,
    sh: Shape,
    forbidden: bool,
    pec: bool,
    trace: &[u16],
    sent: &mut [u8],
    received: &mut [u8],
) -> Decoded
    requires { Sane sh }
    ensures { OutcomeBy number sh forbidden pec trace.now sent.old received.old result sent.new received.new }
{
    if forbidden {
        return Err(Refused {
            why: Refusal::Forbidden,
            place: 0,
        });
    }
    if is_short(sent.len(), received.len()) {
        return Err(Refused {
            why: Refusal::BufferTooShort,
            place: 0,
        });
    }
    let t = decode_by(number, Rules { shape: sh, pec }, trace)?;
    copy_data(sent, trace, sent_place(sh), t.sent);
    copy_data(
        received,
        trace,
        received_place(pec, t.received, trace.len()),
        t.received,
    );
    Ok(t)
}

// The answer for a trace of a protocol of the table. It stays a call of its own, which bench/step.sh counts.
#[inline(never)]
pub fn decode(
    protocol: u8,
    pec: bool,
    trace: &[u16],
    sent: &mut [u8],
    received: &mut [u8],
) -> Decoded
    ensures { Outcome protocol pec trace.now sent.old received.old result sent.new received.new }
{
    let sh = shape_of(protocol);
    let forbidden = is_forbidden(protocol, pec);
    decode_into(protocol, sh, forbidden, pec, trace, sent, received)
}
