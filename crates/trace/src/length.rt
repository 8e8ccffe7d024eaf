// How many symbols a trace has: the scope's last two columns.
ghost use Rattle.std.specs.Prelude.{◌≡◌, ◌+◌, ◌*◌, ◌≤◌};
ghost use Rattle.lists.specs.Choice.{pick};
ghost use Rattle.trace.specs.Shapes.{writes, reads, is_counted};
ghost use Rattle.trace.specs.Lengths.{trace_length, room_by, room_for};

use crate::protocol::{is_forbidden, shape_of};
use crate::shape::Shape;
use crate::valid::lengths_fit;

fn one_if(b: bool) -> usize
    ensures { (result ≡ pick b 1 0) × (result ≤ 1) }
{
    if b { 1 } else { 0 }
}

// The symbols of a read phase before its PEC and the STOP.
fn read_length(sh: Shape, n: usize) -> usize
    requires { n ≤ 255 }
    ensures { (result ≡ pick (reads sh) (pick (writes sh) 3 0 + 2 * (pick (is_counted sh.received) 1 0 + n)) 0) × (result ≤ 515) }
{
    if !sh.has_read() {
        return 0;
    }
    let turn = if sh.has_write() { 3 } else { 0 };
    turn + 2 * (one_if(sh.received.is_counted()) + n)
}

// The symbols of a trace with m bytes sent and n received.
#[tactic(auto, unfolding(crate::specs::Lengths::trace_length))]
fn trace_length(sh: Shape, pec: bool, m: usize, n: usize) -> usize
    requires { (m ≤ 255) × (n ≤ 255) }
    ensures { result ≡ trace_length sh pec m n }
{
    let b = one_if(sh.command);
    let k = one_if(sh.sent.is_counted());
    4 + 2 * (b + k + m) + read_length(sh, n) + 2 * one_if(pec)
}

// The room that the encoder needs for a message of a shape, in symbols; none where it is forbidden, or a length is refused.
#[tactic(auto, unfolding(crate::specs::Lengths::room_by))]
pub fn room_by(sh: Shape, forbidden: bool, pec: bool, m: usize, n: usize) -> Option<usize>
    ensures { result ≡ room_by sh forbidden pec m n }
{
    if !forbidden && lengths_fit(sh, m, n) {
        Some(trace_length(sh, pec, m, n))
    } else {
        None
    }
}

// The same for a protocol of the table, as C gets it: 0 where the encoder refuses the protocol, the PEC or a length.
#[tactic(auto, unfolding(crate::specs::Lengths::room_by))]
pub fn room_for(protocol: u8, pec: bool, m: usize, n: usize) -> usize
    ensures { result ≡ room_for protocol pec m n }
{
    // Kept: not by room_by. The Option in between costs half as much again.
    if is_forbidden(protocol, pec) {
        return 0;
    }
    let sh = shape_of(protocol);
    if !lengths_fit(sh, m, n) {
        return 0;
    }
    trace_length(sh, pec, m, n)
}
