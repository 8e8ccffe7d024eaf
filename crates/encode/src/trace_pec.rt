// The packet error code over every byte of both phases, the address bytes and the counts included. The table is taken once and lent.
ghost use Rattle.std.specs.Prelude.{◌≡◌};
ghost use Rattle.lists.specs.Choice.{pick};
ghost use Rattle.pec.specs.Pec.{pec_from, pec_of};
ghost use Rattle.trace.specs.Trace.{in_place};
ghost use Rattle.encode.specs.Pieces.{part_bytes, write_bytes, bytes_after, pec_of_phases};

use crate::bytes::count_of;
use pec::table::Table;
use trace::shape::{Part, Shape};
use wire::address::WireByte;

// One byte more, where there is one.
fn add_byte_if(t: &Table, c: u8, there: bool, b: u8) -> u8
    ensures { result ≡ pec_from c (in_place there b) }
{
    if there { t.add_byte(c, b) } else { c }
}

// A part of a message: its count, where it is counted, and its data.
fn add_part(t: &Table, c: u8, a: Part, s: &[u8]) -> u8
    ensures { result ≡ pec_from c (part_bytes a s.now) }
{
    t.add_bytes(add_byte_if(t, c, a.is_counted(), count_of(s)), s)
}

// The write phase.
fn write_pec(t: &Table, sh: Shape, first: WireByte, command: u8, sent: &[u8]) -> u8
    ensures { result ≡ pec_of (write_bytes sh first.0 command sent.now) }
{
    let c = add_byte_if(t, t.add_byte(0, first.0), sh.command, command);
    add_part(t, c, sh.sent, sent)
}

// The read phase after it, where there is one.
fn read_pec(t: &Table, c: u8, sh: Shape, second: WireByte, received: &[u8]) -> u8
    ensures { result ≡ pec_from c (bytes_after sh second.0 received.now) }
{
    if !sh.has_read() {
        return c;
    }
    add_part(
        t,
        add_byte_if(t, c, sh.has_write(), second.0),
        sh.received,
        received,
    )
}

// The PEC of the whole; 0 where none is used, and no time is spent on it.
pub(crate) fn pec_of(
    pec: bool,
    sh: Shape,
    first: WireByte,
    second: WireByte,
    command: u8,
    sent: &[u8],
    received: &[u8],
) -> u8
    ensures { result ≡ pick pec (pec_of_phases sh first.0 second.0 command sent.now received.now) 0 }
{
    if !pec {
        return 0;
    }
    let t = Table::new();
    let c = write_pec(&t, sh, first, command, sent);
    read_pec(&t, c, sh, second, received)
}
