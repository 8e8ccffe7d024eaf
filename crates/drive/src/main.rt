// drive: a pass of the controller over one target, as README.md shows it. There is no bus: every trace that comes back is made here.
#![tactic(auto)]

ghost use Rattle.std.specs.Prelude.{◌≤◌, ◌≡◌, length};

use arp::lookup::Found;
use arp::start::NEVER_PICKED;
use arp::state::{Controller, Stepped};
use commands::command::{Command, Handed};
use commands::request::put_command;
use encode::EncodeError;
use pool::Pool;
use std::io;
use udid::Udid;
use wire::address::Address;

fn say_udid(rt: &impl Print, u: Udid) -> io::Result<()> {
    println!(rt; "{:016x}{:016x}", u.high, u.low)
}

fn say_assign(rt: &impl Print, u: Udid, a: Address) -> io::Result<()> {
    print!(rt; "Assign Address 0x{:02x} to ", a.0)?;
    say_udid(rt, u)
}

fn say_line(rt: &impl Print, s: &str) -> io::Result<()> {
    println!(rt; "{s}")
}

// A command, in a line.
fn say_sent(rt: &impl Print, c: Command) -> io::Result<()> {
    match c {
        Command::Prepare => say_line(rt, "Prepare To ARP"),
        Command::GetUdid => say_line(rt, "Get UDID"),
        Command::Assign(u, a) => say_assign(rt, u, a),
    }
}

// A command, or that the pass has ended, in a line.
fn say(rt: &impl Print, c: Handed) -> io::Result<()> {
    match c {
        Handed::Send(k) => say_sent(rt, k),
        Handed::Wait(_) => say_line(rt, "the pass has ended"),
    }
}

fn say_bound(rt: &impl Print, u: Udid) -> io::Result<()> {
    print!(rt; "bound: ")?;
    say_udid(rt, u)
}

// Who was found at an address, in a line.
fn say_found(rt: &impl Print, f: Found) -> io::Result<()> {
    match f {
        Found::Bound(u) => say_bound(rt, u),
        _ => say_line(rt, "nobody is bound"),
    }
}

// The data of a target's reply: its identifier, and FFh, since it has no address.
fn reply_data() -> [u8; 17]
    ensures { length result ≡ 17 }
{
    let u = Udid {
        high: 0x8101_0ad2_0003_0024,
        low: 4,
    };
    let mut data = [0u8; 17];
    u.put_bytes(&mut data, 0);
    data[16] = 0xff;
    data
}

// How many symbols were written; none where there was no room.
fn symbols(e: Result<usize, EncodeError>) -> usize
    ensures { result ≤ 64 }
{
    match e {
        Ok(n) if n <= 64 => n,
        _ => 0,
    }
}

// README.md shows the lines from here ..
fn exchange(rt: &impl Print, turn: Stepped, reply: &[u8]) -> io::Result<Stepped> {
    say(rt, turn.command)?;
    let mut trace = [0u16; 64];
    let n = symbols(put_command(turn.command, reply, &mut trace));
    // A driver sends the trace here; of Get UDID the part up to the read address, for the rest is the target's reply.
    // Then it hands the step what stood on the bus. In this program that is the trace as it is: nothing goes wrong.
    Ok(turn.state.step(&trace[..n]))
}

fn main(rt: HostRuntime) -> io::Result<()> {
    let controller = Controller::new(Pool::empty(), NEVER_PICKED); // no address is given as occupied
    let reply = reply_data(); // what the one target here answers to Get UDID
    let first = controller.start();
    let second = exchange(&rt, first, &reply[..0])?;
    let third = exchange(&rt, second, &reply)?;
    let fourth = exchange(&rt, third, &reply[..0])?;
    say_found(&rt, fourth.state.lookup(Address(0x0D)))
}
// .. to here.
