// What a received trace tells of the command that is outstanding. Nothing here knows the controller's state. Rests on decode for the trace
// and on heard for whether it is the command sent.
ghost use Rattle.std.specs.Prelude.{◌≡◌};
ghost use Rattle.hearing.specs.Told.{protocol_of, told_prepare, told_reply, told_get, told_assign, told_by, tells};

use super::heard::{byte_at, is_command, is_complete, is_nobody, is_prepare};
use commands::command::{Command, GET_UDID, Handed};
use scan::answer::{Decoded, is_nack};
use trace::transaction::Transaction;
use udid::Udid;
use wire::address::Address;

#[derive(Clone, Copy)]
pub enum Told {
    // Nothing new: Get UDID is due.
    Again,
    // Nobody is left: the pass ends.
    Over,
    // The pass is given up.
    GivenUp,
    // A target replied with this identifier and this address byte.
    Reply(Udid, u8),
    // The target took the address.
    Took(Udid, Address),
    // No command is outstanding.
    Unasked,
}

// A transaction was decoded where the reply to Get UDID is due.
fn reply_in(t: Transaction, received: &[u8]) -> Told
    ensures { result ≡ told_reply t received.now }
{
    if !is_command(t, GET_UDID) {
        Told::Again
    } else if t.received != 17 {
        Told::Over
    } else {
        Told::Reply(Udid::from_bytes(received, 0), byte_at(received, 16))
    }
}

// Prepare To ARP is outstanding.
fn after_prepare(answer: Decoded, sent: &[u8]) -> Told
    ensures { result ≡ told_prepare answer sent.now }
{
    match answer {
        Ok(t) if is_prepare(t, sent) => Told::Again,
        Err(e) if is_nack(e.why) => Told::Over,
        _ => Told::GivenUp,
    }
}

// Get UDID is outstanding.
fn after_get(answer: Decoded, received: &[u8]) -> Told
    ensures { result ≡ told_get answer received.now }
{
    if is_nobody(answer) {
        return Told::Over;
    }
    let Ok(t) = answer else {
        return Told::Again;
    };
    reply_in(t, received)
}

// Assign Address is outstanding.
fn after_assign(u: Udid, a: Address, answer: Decoded, sent: &[u8]) -> Told
    ensures { result ≡ told_assign u a answer sent.now }
{
    if is_complete(u, a, answer, sent) {
        Told::Took(u, a)
    } else {
        Told::Again
    }
}

// The protocol of a command.
fn protocol_of(k: Command) -> u8
    ensures { result ≡ protocol_of k }
{
    match k {
        Command::Prepare => 1,
        Command::GetUdid => 9,
        Command::Assign(_, _) => 8,
    }
}

// By the command that is outstanding.
fn after_answer(k: Command, answer: Decoded, sent: &[u8], received: &[u8]) -> Told
    ensures { result ≡ told_by k answer sent.now received.now }
{
    match k {
        Command::Prepare => after_prepare(answer, sent),
        Command::GetUdid => after_get(answer, received),
        Command::Assign(u, a) => after_assign(u, a, answer, sent),
    }
}

// The trace is decoded for that command, with PEC.
fn after(k: Command, trace: &[u16]) -> Told
    ensures { result ≡ tells (Handed.Send k) trace.now }
{
    let mut sent = [0u8; 255];
    let mut received = [0u8; 255];
    let answer = decode::decode(protocol_of(k), true, trace, &mut sent, &mut received);
    after_answer(k, answer, &sent, &received)
}

// What the trace tells, by what was handed out last.
pub fn tell(last: Handed, trace: &[u16]) -> Told
    ensures { result ≡ tells last trace.now }
{
    match last {
        Handed::Send(k) => after(k, trace),
        Handed::Wait(_) => Told::Unasked,
    }
}
