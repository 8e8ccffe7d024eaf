// What a command is on the wire: its transaction, with PEC and to the default address, and the trace of it. Rests on encode and udid.
ghost use Rattle.std.specs.Prelude.{◌≡◌, true, []};
ghost use Rattle.encode.specs.Encode.{Wrote};
ghost use Rattle.commands.specs.Requests.{protocol_for, message_of, assign_data};

use super::command::{ASSIGN_ADDRESS, Command, GET_UDID, Handed, PREPARE_TO_ARP};
use encode::{EncodeError, encode};
use udid::Udid;
use wire::address::Address;

// The 17 bytes of Assign Address: the identifier, and the address for writing.
fn assign_data(u: Udid, a: Address) -> [u8; 17]
    ensures { result ≡ assign_data u a.0 }
{
    let mut data = [0u8; 17];
    u.put_bytes(&mut data, 0);
    let w = a.for_write();
    data[16] = w.0;
    data
}

fn put_prepare(out: &mut [u16]) -> Result<usize, EncodeError>
    ensures { Wrote 1 true (message_of (Handed.Send Command.Prepare) []) out.old result out.new }
{
    let sent = [PREPARE_TO_ARP; 1];
    let none = [0u8; 1];
    encode(1, true, Address::DEFAULT, 0, 0, &sent, &none[..0], out)
}

fn put_get(reply: &[u8], out: &mut [u16]) -> Result<usize, EncodeError>
    ensures { Wrote 9 true (message_of (Handed.Send Command.GetUdid) reply.now) out.old result out.new }
{
    encode(
        9,
        true,
        Address::DEFAULT,
        0,
        GET_UDID,
        &reply[..0],
        reply,
        out,
    )
}

// A number above 127 is no address: it is refused, and the output stays as it is.
fn put_assign(u: Udid, a: Address, out: &mut [u16]) -> Result<usize, EncodeError>
    ensures { Wrote (protocol_for (Handed.Send (Command.Assign u a))) true (message_of (Handed.Send (Command.Assign u a)) []) out.old result out.new }
{
    if a.0 > 127 {
        return Err(EncodeError::Forbidden);
    }
    let sent = assign_data(u, a);
    let none = [0u8; 1];
    encode(
        8,
        true,
        Address::DEFAULT,
        0,
        ASSIGN_ADDRESS,
        &sent,
        &none[..0],
        out,
    )
}

fn put_sent(k: Command, reply: &[u8], out: &mut [u16]) -> Result<usize, EncodeError>
    ensures { Wrote (protocol_for (Handed.Send k)) true (message_of (Handed.Send k) reply.now) out.old result out.new }
{
    match k {
        Command::Prepare => put_prepare(out),
        Command::GetUdid => put_get(reply, out),
        Command::Assign(u, a) => put_assign(u, a, out),
    }
}

// The trace of a command that is acknowledged whole, at the front of the output; for Get UDID, with these data as its reply.
// An end of a pass is no command, and a number above 127 no address to assign: both are refused, and the output stays as it is.
pub fn put_command(k: Handed, reply: &[u8], out: &mut [u16]) -> Result<usize, EncodeError>
    ensures { Wrote (protocol_for k) true (message_of k reply.now) out.old result out.new }
{
    match k {
        Handed::Send(c) => put_sent(c, reply, out),
        Handed::Wait(_) => Err(EncodeError::Forbidden),
    }
}
