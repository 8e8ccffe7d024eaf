// What follows the write phase, from the front of the part of the output that is lent for it: the read phase, or the end without one.
ghost use Rattle.std.specs.Prelude.{◌≡◌, true, ◌++◌, ◌+◌, ◌-◌, ◌*◌, ◌≤◌, ◌<◌, length, set};
ghost use Rattle.lists.specs.Onto.{onto};
ghost use Rattle.wire.specs.Symbols.{NACK as NackOf, STOP as StopOf};
ghost use Rattle.trace.specs.Shapes.{reads};
ghost use Rattle.trace.specs.Trace.{in_place};
ghost use Rattle.encode.specs.Pieces.{repeated_start, read_bytes, read_phase, ending, rest};

use crate::bytes::{put_byte_if, put_part};
use trace::shape::{Part, Shape};
use wire::address::WireByte;
use wire::symbol::{ACK, NACK, START, STOP};

// A repeated START and the address byte for a read, after a write phase. Without one that byte has gone already, as the first.
fn put_repeated_start(out: &mut [u16], repeated: bool, second: WireByte) -> usize
    requires { length (repeated_start repeated second.0) ≤ length out.old }
    ensures { (result ≡ length (repeated_start repeated second.0)) × (out.new ≡ onto (repeated_start repeated second.0) out.old) }
{
    if repeated {
        out[0] = START;
        out[1] = second.0 as u16;
        out[2] = ACK;
        3
    } else {
        0
    }
}

// The last byte read gets NACK for its ACK, and STOP follows it.
fn put_nack_stop(out: &mut [u16], e: usize)
    requires { (0 < e) × (e < length out.old) }
    ensures { out.new ≡ set (set out.old (e - 1) NackOf) e StopOf }
{
    out[e - 1] = NACK;
    out[e] = STOP;
}

// The read phase: the repeated START, the count and the data received, PEC, STOP. The last byte gets NACK, each other byte ACK.
fn put_read_phase(
    out: &mut [u16],
    repeated: bool,
    second: WireByte,
    a: Part,
    received: &[u8],
    pec: bool,
    pecbyte: u8,
)
    requires { (length (repeated_start repeated second.0) + (2 * length (read_bytes a received.now pec pecbyte) + 1) ≤ length out.old) × (0 < length (read_bytes a received.now pec pecbyte)) }
    ensures { out.new ≡ onto (repeated_start repeated second.0 ++ read_phase (read_bytes a received.now pec pecbyte)) out.old }
{
    let n = put_repeated_start(out, repeated, second);
    let m = put_part(out, n, a, received);
    let e = put_byte_if(out, m, pec, pecbyte);
    put_nack_stop(out, e);
}

// The end of a trace without a read phase: PEC, where it is used, and STOP.
fn put_end(out: &mut [u16], pec: bool, pecbyte: u8)
    requires { 2 * length (in_place pec pecbyte) < length out.old }
    ensures { out.new ≡ onto (ending pec pecbyte) out.old }
{
    let e = put_byte_if(out, 0, pec, pecbyte);
    out[e] = STOP;
}

// Which of the two it is.
pub(crate) fn put_rest(
    out: &mut [u16],
    sh: Shape,
    second: WireByte,
    received: &[u8],
    pec: bool,
    pecbyte: u8,
)
    requires { (length (rest sh second.0 received.now pec pecbyte) ≤ length out.old) × (reads sh ≡ true → 0 < length (read_bytes sh.received received.now pec pecbyte)) }
    ensures { out.new ≡ onto (rest sh second.0 received.now pec pecbyte) out.old }
{
    if sh.has_read() {
        put_read_phase(
            out,
            sh.has_write(),
            second,
            sh.received,
            received,
            pec,
            pecbyte,
        );
    } else {
        put_end(out, pec, pecbyte);
    }
}
