// The write phase: START, the first address byte, the command and the data sent, each byte with the target's ACK.
ghost use Rattle.std.specs.Prelude.{◌≡◌, ◌+◌, ◌*◌, ◌≤◌, length};
ghost use Rattle.lists.specs.Onto.{onto};
ghost use Rattle.encode.specs.Pieces.{first_of, write_bytes, write_phase};

use crate::bytes::{put_byte_if, put_part};
use trace::shape::Shape;
use wire::address::{Address, WireByte};
use wire::symbol::{ACK, START};

// The first address byte: for a write where a write phase follows, else for a read where a read phase does. A Quick says itself which.
pub(crate) fn first_byte(sh: Shape, address: Address, direction: u8) -> WireByte
    ensures { result.0 ≡ first_of sh address.0 direction }
{
    if sh.has_write() || !sh.has_read() && direction == 0 {
        address.for_write()
    } else {
        address.for_read()
    }
}

// Answers the place after the phase. A protocol without a write phase has its first address byte here too.
pub(crate) fn put_write_phase(
    out: &mut [u16],
    sh: Shape,
    first: WireByte,
    command: u8,
    sent: &[u8],
) -> usize
    requires { 1 + 2 * length (write_bytes sh first.0 command sent.now) ≤ length out.old }
    ensures { (result ≡ 1 + 2 * length (write_bytes sh first.0 command sent.now)) × (out.new ≡ onto (write_phase sh first.0 command sent.now) out.old) }
{
    out[0] = START;
    out[1] = first.0 as u16;
    out[2] = ACK;
    let n = put_byte_if(out, 3, sh.command, command);
    put_part(out, n, sh.sent, sent)
}
