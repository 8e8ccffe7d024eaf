// The answers of decode.
ghost use Rattle.std.specs.Prelude.{◌≡◌, ◌++◌};
ghost use Rattle.writing.specs.Pages.{with_text};
ghost use Rattle.pieces.specs.Pieces.{bytes_text};
ghost use Rattle.codec_answers.specs.Decodings.{fields_text, transaction_text, decoded_text};

use crate::refusal::put_refusal;
use pieces::list::put_bytes;
use pieces::piece::{put_hex, put_number};
use scan::answer::Decoded;
use text::word::part;
use trace::transaction::Transaction;
use writing::page::Page;

// The fields of a transaction.
fn put_fields(page: &mut Page, t: Transaction)
    ensures { page.new ≡ with_text page.old (fields_text t) }
{
    let address = t.address;
    put_hex(page, b"0 address 0x", address.0);
    put_number(page, b" direction ", u64::from(t.direction));
    put_hex(page, b" command 0x", t.command);
}

// Data after their mark.
fn put_data(page: &mut Page, mark: &[u8], s: &[u8])
    ensures { page.new ≡ with_text page.old (mark.now ++ bytes_text s.now) }
{
    page.put(mark);
    put_bytes(page, s);
}

// A transaction, with the data that stand at the front of two buffers.
fn put_transaction(page: &mut Page, t: Transaction, sent: &[u8], received: &[u8])
    ensures { page.new ≡ with_text page.old (transaction_text t sent.now received.now) }
{
    put_fields(page, t);
    put_data(page, b" w", part(sent, 0, t.sent));
    put_data(page, b" r", part(received, 0, t.received));
    page.put(b"\n");
}

// What the decoder answered.
pub fn put_decoded(page: &mut Page, d: Decoded, sent: &[u8], received: &[u8])
    ensures { page.new ≡ with_text page.old (decoded_text d sent.now received.now) }
{
    match d {
        Ok(t) => put_transaction(page, t, sent, received),
        Err(e) => {
            put_refusal(page, e);
            page.put(b"\n");
        }
    }
}
