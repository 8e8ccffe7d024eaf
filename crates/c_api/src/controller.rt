// Traces of the ARP controller's commands, and a pass over a list of traces, of issues and declines of a choice that waits, and of reports that
// a module is gone. The controller's state does not cross to C: a pass starts anew at each call, with the last pick that is given, and takes
// the entries of the list one after the other.
ghost use Rattle.std.specs.Prelude.{◌≡◌, true};
ghost use Rattle.commands.specs.Requests.{protocol_for, message_of};
ghost use Rattle.c_codec.specs.Codec.{WrotePairs};
ghost use Rattle.c_arp.specs.Commands.{command_of};
ghost use Rattle.c_arp.specs.Parts.{pool_in, udid_in};
ghost use Rattle.c_arp.specs.Pass.{pass_command, pass_found};

use c_arp::kinds::{HbCommand, put_command_pairs};
use c_arp::parts::{HbPool, HbUdid};
use c_arp::pass::{HbFound, pass_command, pass_lookup};
use c_codec::codec::HbWritten;

// The trace of a command that is acknowledged whole; for Get UDID, with these data as its reply.
#[unsafe(no_mangle)]
pub extern "C" fn hb_put_command(
    kind: u8,
    udid: HbUdid,
    address: u8,
    reply: &[u8],
    out: &mut [u8],
) -> HbWritten
    ensures { WrotePairs (protocol_for (command_of kind (udid_in udid) (record { 0 = address }))) true (message_of (command_of kind (udid_in udid) (record { 0 = address })) reply.now) out.old result out.new }
{
    put_command_pairs(kind, udid, address, reply, out)
}

// What was answered last, by the start or by an entry that is no report, and the last pick then; with no entry, Prepare To ARP.
#[unsafe(no_mangle)]
pub extern "C" fn hb_pass(occupied: HbPool, last: u8, entries: &[u8]) -> HbCommand
    ensures { result ≡ pass_command (pool_in occupied) last entries.now }
{
    pass_command(occupied, last, entries)
}

// Who is bound at an address after such a pass, or that its module was reported gone.
#[unsafe(no_mangle)]
pub extern "C" fn hb_pass_lookup(occupied: HbPool, last: u8, entries: &[u8], address: u8) -> HbFound
    ensures { result ≡ pass_found (pool_in occupied) last entries.now address }
{
    pass_lookup(occupied, last, entries, address)
}
