// The encoder: the refusals, then the trace of a transaction at the front of the output.
// Rests on trace. What it promises is the record Wrote of specs/Encode.antt; what each answer means, specs/EncodeLaws.antt.
#![tactic(auto)]

ghost use Rattle.std.specs.Prelude.{◌≡◌, length};
ghost use Rattle.lists.specs.Onto.{onto};
ghost use Rattle.trace.specs.Sane.{Sane};
ghost use Rattle.trace.specs.Trace.{trace};
ghost use Rattle.encode.specs.Encode.{message, WroteBy, Wrote};
ghost use Rattle.encode.specs.Pieces.{fields_fit, Ready};

use trace::length::room_by;
use trace::protocol::{is_forbidden, shape_of};
use trace::shape::Shape;
use trace::valid::{address_fits, command_fits, direction_fits};
use wire::address::Address;

mod bytes;
mod read;
mod trace_pec;
mod write;

// Why the encoder refuses: 1; 2. Else it answers the length of the trace that it wrote.
#[derive(Clone, Copy, PartialEq, Eq)]
pub enum EncodeError {
    Forbidden,
    OutputTooShort,
}

// The address and the fields that the shape has or lacks.
fn fields_fit(sh: Shape, address: Address, direction: u8, command: u8) -> bool
    ensures { result ≡ fields_fit sh address.0 direction command }
{
    address_fits(sh, address) && direction_fits(sh, direction) && command_fits(sh, command)
}

// The whole trace of a valid message, where there is room for it.
fn put_trace(
    out: &mut [u16],
    sh: Shape,
    pec: bool,
    address: Address,
    direction: u8,
    command: u8,
    sent: &[u8],
    received: &[u8],
)
    requires { Ready sh pec (message address.0 direction command sent.now received.now) (length out.old) }
    ensures { out.new ≡ onto (trace sh pec (message address.0 direction command sent.now received.now)) out.old }
{
    let first = write::first_byte(sh, address, direction);
    let second = address.for_read();
    let pecbyte = trace_pec::pec_of(pec, sh, first, second, command, sent, received);
    let n = write::put_write_phase(out, sh, first, command, sent);
    // What follows the write phase is lent, from its middle on, to the writer of the read phase.
    read::put_rest(&mut out[n..], sh, second, received, pec, pecbyte);
}

// The trace of a message of a shape, at the front of the output; the rest of the output, and all of it on a refusal, stays as it was.
// The caller says whether the protocol, or a PEC of it, is forbidden. Each table of protocols has its entry: it gives the shape and that answer.
fn encode_by(
    sh: Shape,
    forbidden: bool,
    pec: bool,
    address: Address,
    direction: u8,
    command: u8,
    sent: &[u8],
    received: &[u8],
    out: &mut [u16],
) -> Result<usize, EncodeError>
    requires { Sane sh }
    ensures { WroteBy sh forbidden pec (message address.0 direction command sent.now received.now) out.old result out.new }
{
    let Some(n) = room_by(sh, forbidden, pec, sent.len(), received.len()) else {
        return Err(EncodeError::Forbidden);
    };
    if !fields_fit(sh, address, direction, command) {
        return Err(EncodeError::Forbidden);
    }
    if out.len() < n {
        return Err(EncodeError::OutputTooShort);
    }
    put_trace(out, sh, pec, address, direction, command, sent, received);
    Ok(n)
}

// The trace of a message of a protocol of the table.
// Kept: a protocol is any u8, for a number that is none is refused here, as C's calls need it (`Listed`).
pub fn encode(
    protocol: u8,
    pec: bool,
    address: Address,
    direction: u8,
    command: u8,
    sent: &[u8],
    received: &[u8],
    out: &mut [u16],
) -> Result<usize, EncodeError>
    ensures { Wrote protocol pec (message address.0 direction command sent.now received.now) out.old result out.new }
{
    let sh = shape_of(protocol);
    let forbidden = is_forbidden(protocol, pec);
    encode_by(
        sh, forbidden, pec, address, direction, command, sent, received, out,
    )
}
