// The last data phase of a transaction. A part of a buffer cannot be handed back to C, so its bytes are copied out.
ghost use Rattle.std.specs.Prelude.{◌≡◌, ◌≤◌, length};
ghost use Rattle.lists.specs.Onto.{onto};
ghost use Rattle.c_codec.specs.LastData.{part_of, phase_of, Copied};

use last::last_data;
use trace::transaction::Transaction;
use wire::address::Address;

// The scope's number, and how many bytes were copied.
#[repr(C)]
#[derive(Clone, Copy)]
pub struct HbPart {
    pub answer: u32,
    pub length: usize,
}

fn part(answer: u32, length: usize) -> HbPart
    ensures { result ≡ part_of answer length }
{
    HbPart { answer, length }
}

// Bytes to the front of a buffer.
// Kept: by index. copy_from_slice calls memmove, a name that firmware without a C library may lack.
fn copy(out: &mut [u8], bytes: &[u8])
    requires { length bytes.now ≤ length out.old }
    ensures { out.new ≡ onto bytes.now out.old }
{
    for i in 0..bytes.len() {
        out[i] = bytes[i];
    }
}

// The last data phase, to the front of a buffer. m and n are the lengths that the transaction has sent and received.
pub fn put_last_data<'a>(
    protocol: u8,
    m: usize,
    n: usize,
    sent: &'a [u8],
    received: &'a [u8],
    out: &mut [u8],
) -> HbPart
    ensures { Copied (phase_of protocol m n sent.now received.now) out.old result out.new }
{
    let t = Transaction {
        protocol,
        address: Address(0),
        direction: 0,
        command: 0,
        sent: m,
        received: n,
    };
    let d = last_data(sent, received, t);
    if out.len() < d.len() {
        return part(2, 0);
    }
    copy(out, d);
    part(0, d.len())
}
