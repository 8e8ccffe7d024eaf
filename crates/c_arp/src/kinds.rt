// Commands of the ARP controller as numbers, and their traces. The kinds: 0 Prepare To ARP, 1 Get UDID, 2 Assign Address, and the
// ends of a pass: 3 ended, 4 no free address, 5 abandoned, 6 no command outstanding, 7 no pass has begun. 8 is a choice that waits.
ghost use Rattle.std.specs.Prelude.{◌≡◌, true};
ghost use Rattle.commands.specs.Requests.{protocol_for, message_of};
ghost use Rattle.c_arp.specs.Parts.{udid_in};
ghost use Rattle.c_codec.specs.Codec.{WrotePairs};
ghost use Rattle.report.specs.Report.{no_udid};
ghost use Rattle.c_arp.specs.Commands.{command_of, said_of, reason_number, told_end};
ghost use Rattle.c_arp.specs.Pass.{told_pass};

use crate::parts::HbUdid;
use arp::state::Stepped;
use c_codec::codec::{HbWritten, written};
use commands::command::{Command, End, Handed, Reason};
use commands::request::put_command;
use pairs::put_pairs;
use udid::Udid;
use wire::address::Address;

// A command of a kind that is sent; every other number is no command.
fn command_of(kind: u8, u: Udid, a: Address) -> Handed
    ensures { result ≡ command_of kind u a }
{
    match kind {
        0 => Handed::Send(Command::Prepare),
        1 => Handed::Send(Command::GetUdid),
        2 => Handed::Send(Command::Assign(u, a)),
        _ => Handed::Wait(End::Nothing),
    }
}

// What the controller handed out: the kind, the scope's number of an end, the identifier and the address of an Assign or of a choice, or
// the identifier that found no address, the Get UDIDs sent so far, the last pick, and why the address of a choice was chosen. Whatever a
// kind lacks is 0. With 1 and 21 all is 0 but the answer and the kind, which says that no command is outstanding.
#[repr(C)]
#[derive(Clone, Copy)]
pub struct HbCommand {
    pub kind: u32,
    pub answer: u32,
    pub address: u32,
    pub gets: u32,
    pub picked: u32,
    pub reason: u32,
    pub udid: HbUdid,
}

// With 6 all is 0 but the kind and the answer.
pub(crate) const NOT_OUTSTANDING: HbCommand = HbCommand {
    kind: 6,
    answer: 21,
    address: 0,
    gets: 0,
    picked: 0,
    reason: 0,
    udid: HbUdid { high: 0, low: 0 },
};

// Why an address was chosen, as a number: 1 fixed, 2 kept, 3 picked, 4 claimed by two.
fn reason_number(why: Reason) -> u32
    ensures { result ≡ reason_number why }
{
    match why {
        Reason::Fixed => 1,
        Reason::Kept => 2,
        Reason::Picked => 3,
        Reason::Claimed => 4,
    }
}

// Why nothing is to be sent, as a struct; rest has what is told with every end.
fn told_end(e: End, rest: HbCommand) -> HbCommand
    requires { rest ≡ said_of 0 0 no_udid 0 rest.gets rest.picked }
    ensures { result ≡ told_end e rest.gets rest.picked }
{
    match e {
        End::Ended => HbCommand { kind: 3, ..rest },
        End::NoneFree(u) => HbCommand {
            kind: 4,
            answer: 13,
            udid: u.into(),
            ..rest
        },
        End::Abandoned => HbCommand {
            kind: 5,
            answer: 14,
            ..rest
        },
        End::NotOutstanding => NOT_OUTSTANDING,
        End::Nothing => HbCommand { kind: 7, ..rest },
        End::Chosen(u, a, why) => HbCommand {
            kind: 8,
            address: u32::from(a.0),
            reason: reason_number(why),
            udid: u.into(),
            ..rest
        },
    }
}

// What was handed out last, the Get UDIDs so far and the last pick.
impl From<Stepped> for HbCommand {
    ghost from_gives = { λ st h. h ≡ told_pass st };

    fn from(st: Stepped) -> HbCommand {
        let rest = HbCommand {
            kind: 0,
            answer: 0,
            address: 0,
            gets: st.state.gets,
            picked: u32::from(st.state.picked),
            reason: 0,
            udid: HbUdid { high: 0, low: 0 },
        };
        match st.command {
            Handed::Send(Command::Prepare) => rest,
            Handed::Send(Command::GetUdid) => HbCommand { kind: 1, ..rest },
            Handed::Send(Command::Assign(u, a)) => HbCommand {
                kind: 2,
                address: u32::from(a.0),
                udid: u.into(),
                ..rest
            },
            Handed::Wait(e) => told_end(e, rest),
        }
    }
}

// The trace of a command that is acknowledged whole, as byte pairs; for Get UDID, with these data as its reply. An Assign of a number
// above 127 is refused with 1, and so is a kind above 2; the output then stays as it is.
pub fn put_command_pairs(
    kind: u8,
    u: HbUdid,
    address: u8,
    reply: &[u8],
    out: &mut [u8],
) -> HbWritten
    ensures { WrotePairs (protocol_for (command_of kind (udid_in u) (record { 0 = address }))) true (message_of (command_of kind (udid_in u) (record { 0 = address })) reply.now) out.old result out.new }
{
    let k = command_of(kind, u.into(), Address(address));
    let mut buf = [0u16; 525];
    let r = put_command(k, reply, &mut buf);
    let Ok(n) = r else {
        return written(1, 0);
    };
    if put_pairs(out, &buf[..n]) {
        return written(0, n as u32);
    }
    written(2, 0)
}
