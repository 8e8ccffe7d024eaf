// Whether a transaction that was decoded is the command that was sent. Rests on crates scan, trace, udid and wire.
ghost use Rattle.std.specs.Prelude.{◌≡◌, get_or};
ghost use Rattle.hearing.specs.Heard.{is_command, is_prepare, names, is_assign, completes, nobody};

use commands::command::{ASSIGN_ADDRESS, PREPARE_TO_ARP};
use scan::answer::{Decoded, is_nack};
use trace::transaction::Transaction;
use udid::Udid;
use wire::address::Address;

// A byte of a slice, zero past its end.
pub(crate) fn byte_at(s: &[u8], i: usize) -> u8
    ensures { result ≡ get_or s.now i 0 }
{
    s.get(i).copied().unwrap_or(0)
}

// A command with this code, to the default address.
pub(crate) fn is_command(t: Transaction, code: u8) -> bool
    ensures { result ≡ is_command code t }
{
    t.address.is_default() && t.command == code
}

// Prepare To ARP: the byte 01h to the default address.
pub(crate) fn is_prepare(t: Transaction, sent: &[u8]) -> bool
    ensures { result ≡ is_prepare t sent.now }
{
    t.address.is_default() && byte_at(sent, 0) == PREPARE_TO_ARP
}

// The data of Assign Address name this identifier, and this address for writing.
fn names_both(u: Udid, a: Address, sent: &[u8]) -> bool
    ensures { result ≡ names u a.0 sent.now }
{
    Udid::from_bytes(sent, 0).is_same(u) && byte_at(sent, 16) == a.for_write().0
}

// Assign Address of this address to this target: command 04h with 17 bytes.
pub(crate) fn is_assign(u: Udid, a: Address, t: Transaction, sent: &[u8]) -> bool
    ensures { result ≡ is_assign u a.0 t sent.now }
{
    is_command(t, ASSIGN_ADDRESS) && t.sent == 17 && names_both(u, a, sent)
}

// The Assign that was sent is complete: every byte was acknowledged, and the trace is that Assign.
pub(crate) fn is_complete(u: Udid, a: Address, answer: Decoded, sent: &[u8]) -> bool
    ensures { result ≡ completes u a.0 answer sent.now }
{
    match answer {
        Ok(t) => is_assign(u, a, t, sent),
        Err(_) => false,
    }
}

// Nobody answers Get UDID any more: byte 0, 1 or 2 was not acknowledged.
pub(crate) fn is_nobody(a: Decoded) -> bool
    ensures { result ≡ nobody a }
{
    matches!(a, Err(e) if is_nack(e.why) && e.place < 3)
}
