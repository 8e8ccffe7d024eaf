// The answer when the whole trace is read and nothing in it was refused.
ghost use Rattle.std.specs.Prelude.{◌≡◌};
ghost use Rattle.scan.specs.Run.{byte_count, data_length, direction_of, transaction, finish};

use crate::answer::{Decoded, Refusal, Refused};
use crate::refusal::is_over;
use step::state::{Decoder, Due};
use trace::shape::{Part, Shape};
use trace::transaction::Transaction;
use wire::address::{Address, WireByte};
use wire::symbol::is_byte;

fn count_bytes(tr: &[u16]) -> usize
    ensures { result ≡ byte_count tr.now }
{
    tr.iter().filter(|x| is_byte(**x)).count()
}

// The length of a part's data, whose count was m.
fn data_length(part: Part, m: u8) -> usize
    ensures { result ≡ data_length part m }
{
    match part {
        Part::Nothing => 0,
        Part::Fixed(k) => k as usize,
        Part::Counted => m as usize,
    }
}

// The direction is Quick's alone, and is the first byte's lowest bit.
fn direction_of(sh: Shape, first: u8) -> u8
    ensures { result ≡ direction_of sh first }
{
    if sh.has_write() || sh.has_read() {
        0
    } else {
        first % 2
    }
}

fn transaction_of(protocol: u8, sh: Shape, d: Decoder) -> Transaction
    ensures { result ≡ transaction protocol sh d }
{
    Transaction {
        protocol,
        address: Address::from_wire(WireByte(d.first)),
        direction: direction_of(sh, d.first),
        command: d.command,
        sent: data_length(sh.sent, d.sentcount),
        received: data_length(sh.received, d.readcount),
    }
}

// 6, else 4, else 0 or 7.
pub(crate) fn finished(protocol: u8, sh: Shape, d: Decoder, tr: &[u16]) -> Decoded
    ensures { result ≡ finish protocol sh d tr.now }
{
    if d.due == Due::Cut {
        return Err(Refused {
            why: Refusal::NotAcknowledged,
            place: count_bytes(tr).saturating_sub(1),
        });
    }
    if !is_over(d) {
        return Err(Refused {
            why: Refusal::EndsEarly,
            place: tr.len(),
        });
    }
    if d.good {
        Ok(transaction_of(protocol, sh, d))
    } else {
        Err(Refused {
            why: Refusal::PecDiffers,
            place: tr.len().saturating_sub(3),
        })
    }
}
