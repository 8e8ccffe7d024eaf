// The last data phase of a transaction, as the very part of the buffer that holds it. Rests on trace.
#![tactic(auto)]

ghost use Rattle.std.specs.Prelude.{◌≡◌, length};
ghost use Rattle.last.specs.Last.{belongs, last_data, last_place};

use trace::protocol::{PROTOCOLS, shape_of};
use trace::transaction::Transaction;
use trace::valid::lengths_fit;

// The protocol is known, both lengths belong to it, and both buffers have them.
fn is_whole(t: Transaction, sent: usize, received: usize) -> bool
    ensures { result ≡ belongs t sent received }
{
    t.protocol < PROTOCOLS
        && lengths_fit(shape_of(t.protocol), t.sent, t.received)
        && t.sent <= sent
        && t.received <= received
}

// The last data phase: of the received buffer where the protocol receives, else of the sent one. Where the protocol is unknown, or a
// length does not belong to it or exceeds its buffer, the empty part at the front of the sent buffer.
pub fn last_data<'a>(sent: &'a [u8], received: &'a [u8], t: Transaction) -> &'a [u8]
    ensures result_value { result.now ≡ last_data t sent.now received.now }
    ensures ref_ptr_value { result.ref_ptr ≡ last_place t (length sent.now) (length received.now) sent.entry.ref_ptr received.entry.ref_ptr }
{
    if !is_whole(t, sent.len(), received.len()) {
        return &sent[..0];
    }
    if shape_of(t.protocol).has_read() {
        &received[..t.received]
    } else {
        &sent[..t.sent]
    }
}
