// What is written: commands, finds and the last pick. A command is a tag, a UDID highest byte first and an address; a find is a tag and a
// UDID; the last pick is a byte. What there is not is zeros. The tags of commands: 0 Prepare To ARP, 1 Get UDID, 2 Assign Address, 3 ended,
// 4 no free address, 5 abandoned, 6 no command outstanding, 7 no pass has begun; and a choice that waits: 8 fixed, 9 kept, 10 picked,
// 11 claimed by two.
ghost use Rattle.std.specs.Prelude.{◌+◌, ◌≤◌, length};

use arp::lookup::Found;
use arp::state::Controller;
use commands::command::{Command, End, Handed, Reason};
use std::io::{self, Write};
use udid::Udid;
use wire::address::Address;

fn write_answer(output: &mut impl Write, tag: u8, u: Udid, a: Address) -> io::Result<()> {
    let mut out = [0u8; 18];
    out[0] = tag;
    out[17] = a.0;
    u.put_bytes(&mut out, 1);
    output.write_all(&out)
}

// A tag alone.
fn write_tag(output: &mut impl Write, tag: u8) -> io::Result<()> {
    let u = Udid { high: 0, low: 0 };
    write_answer(output, tag, u, Address(0))
}

// The tag of a choice that waits.
fn choice_tag(why: Reason) -> u8 {
    match why {
        Reason::Fixed => 8,
        Reason::Kept => 9,
        Reason::Picked => 10,
        Reason::Claimed => 11,
    }
}

pub(crate) fn write_command(output: &mut impl Write, c: Handed) -> io::Result<()> {
    match c {
        Handed::Send(Command::Prepare) => write_tag(output, 0),
        Handed::Send(Command::GetUdid) => write_tag(output, 1),
        Handed::Send(Command::Assign(u, a)) => write_answer(output, 2, u, a),
        Handed::Wait(End::Ended) => write_tag(output, 3),
        Handed::Wait(End::NoneFree(u)) => write_answer(output, 4, u, Address(0)),
        Handed::Wait(End::Abandoned) => write_tag(output, 5),
        Handed::Wait(End::NotOutstanding) => write_tag(output, 6),
        Handed::Wait(End::Nothing) => write_tag(output, 7),
        Handed::Wait(End::Chosen(u, a, why)) => write_answer(output, choice_tag(why), u, a),
    }
}

// One find, from a place on, among zeros.
fn put_find(out: &mut [u8], at: usize, f: Found)
    requires { at + 17 ≤ length out.old }
{
    match f {
        Found::Bound(u) => u.put_bytes(out, at + 1),
        Found::Nobody => out[at] = 15,
        Found::Two => out[at] = 16,
        Found::Left => out[at] = 20,
        Found::NoAddress => out[at] = 1,
    }
}

fn put_finds(out: &mut [u8], c: Controller)
    requires { 2176 ≤ length out.old }
{
    for a in 0u8..128 {
        let at = 17 * usize::from(a);
        put_find(out, at, c.lookup(Address(a)));
    }
}

// What a report was answered.
pub(crate) fn write_find(output: &mut impl Write, f: Found) -> io::Result<()> {
    let mut out = [0u8; 17];
    put_find(&mut out, 0, f);
    output.write_all(&out)
}

// All addresses looked up, and the last pick.
pub(crate) fn write_finds(output: &mut impl Write, c: Controller) -> io::Result<()> {
    let mut out = [0u8; 2177];
    out[2176] = c.picked;
    put_finds(&mut out, c);
    output.write_all(&out)
}
