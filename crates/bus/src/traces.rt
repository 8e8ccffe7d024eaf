// The trace that stands on the bus for a command. Rests on put_command of crate commands for the traces that are acknowledged whole, and on the
// winner among the records; that this is what the bus shows bit by bit is in specs/TurnLaws.
ghost use Rattle.std.specs.Prelude.{◌≡◌, ◌≤◌, length, take};
ghost use Rattle.targets.specs.Records.{targets_of};
ghost use Rattle.commands.specs.Requests.{trace_of};
ghost use Rattle.rule.specs.Acknowledge.{on_bus};
ghost use Rattle.bus.specs.Sizes.{trace_room};
ghost use Rattle.bus.specs.Turn.{Fit, Reaches, silence, Writes};

use commands::command::{Command, Handed};
use commands::request::put_command;
use targets::fields::RECORD;
use targets::{fields, winner};
use wire::symbol::{ACK, NACK, START, STOP};

// Room in symbols for every trace of a pass.
pub(crate) const TRACE_ROOM: usize = 64;

// The default address on the wire, for writing and for reading.
const DEFAULT_WRITE: u16 = 0xC2;

const DEFAULT_READ: u16 = 0xC3;

// The command code of Get UDID.
const GET_UDID: u16 = 0x03;

// The bytes of its reply: the identifier and the device address byte.
const REPLY: usize = 17;

// The trace of a command that is acknowledged whole.
fn put_whole(k: Handed, reply: &[u8], out: &mut [u16]) -> usize
    requires { Writes k reply.now out.old }
    ensures { (result ≡ length (trace_of k reply.now)) × (take result out.new ≡ trace_of k reply.now) }
{
    put_command(k, reply, &mut out[..]).unwrap()
}

// These symbols at the front.
fn put_front(symbols: &[u16], out: &mut [u16]) -> usize
    requires { length symbols.now ≤ length out.old }
    ensures { (result ≡ length symbols.now) × (take result out.new ≡ symbols.now) }
{
    let n = symbols.len();
    out[..n].copy_from_slice(symbols);
    n
}

// Prepare To ARP: all acknowledge; with no target the first byte gets NACK.
fn put_prepare(records: &[u8], out: &mut [u16]) -> usize
    requires { trace_room ≤ length out.old }
    ensures { (result ≤ trace_room) × (take result out.new ≡ on_bus (Handed.Send Command.Prepare) (targets_of records.now)) }
{
    if fields::count(records) == 0 {
        return put_front(&[START, DEFAULT_WRITE, NACK, STOP], &mut out[..]);
    }
    put_whole(Handed::Send(Command::Prepare), &records[..0], &mut out[..])
}

// Get UDID where all are resolved: the read address gets NACK.
fn put_silence(out: &mut [u16]) -> usize
    requires { trace_room ≤ length out.old }
    ensures { (result ≡ 9) × (take 9 out.new ≡ silence) }
{
    let symbols = [
        START,
        DEFAULT_WRITE,
        ACK,
        GET_UDID,
        ACK,
        START,
        DEFAULT_READ,
        NACK,
        STOP,
    ];
    put_front(&symbols, &mut out[..])
}

// Get UDID: the reply of the target that wins on the wire.
fn put_get(records: &[u8], out: &mut [u16]) -> usize
    requires { Fit records.now × Reaches (Handed.Send Command.GetUdid) (targets_of records.now) × (trace_room ≤ length out.old) }
    ensures { (result ≤ trace_room) × (take result out.new ≡ on_bus (Handed.Send Command.GetUdid) (targets_of records.now)) }
{
    let Some(w) = winner::find(records) else {
        return put_silence(&mut out[..]);
    };
    let at = w * RECORD;
    let end = at + REPLY;
    put_whole(
        Handed::Send(Command::GetUdid),
        &records[at..end],
        &mut out[..],
    )
}

// The trace on the bus of a command.
fn put_sent(k: Command, records: &[u8], out: &mut [u16]) -> usize
    requires { Fit records.now × Reaches (Handed.Send k) (targets_of records.now) × (trace_room ≤ length out.old) }
    ensures { (result ≤ trace_room) × (take result out.new ≡ on_bus (Handed.Send k) (targets_of records.now)) }
{
    match k {
        Command::Prepare => put_prepare(records, &mut out[..]),
        Command::GetUdid => put_get(records, &mut out[..]),
        Command::Assign(_, _) => put_whole(Handed::Send(k), &records[..0], &mut out[..]),
    }
}

// The trace on the bus of what is handed out; of an end, nothing.
pub(crate) fn put_trace(k: Handed, records: &[u8], out: &mut [u16]) -> usize
    requires { Fit records.now × Reaches k (targets_of records.now) × (trace_room ≤ length out.old) }
    ensures { (result ≤ trace_room) × (take result out.new ≡ on_bus k (targets_of records.now)) }
{
    match k {
        Handed::Send(c) => put_sent(c, records, &mut out[..]),
        Handed::Wait(_) => 0,
    }
}
