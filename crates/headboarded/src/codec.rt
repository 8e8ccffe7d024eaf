// The requests of the codec: pec, encode and decode.
use crate::numbers::{bytes, symbols};
use codec_answers::codec::{put_encoded, put_pec};
use codec_answers::decoded::put_decoded;
use requests::request::{Fields, Head};
use wire::address::Address;
use writing::page::Page;

// The packet error code of the bytes from a place on.
pub(crate) fn pec(page: &mut Page, text: &[u8], from: usize) {
    let mut buffer = [0u8; 8192];
    put_pec(page, pec::of_bytes(bytes(text, from, &mut buffer)));
}

// The trace of a transaction.
fn encoded(page: &mut Page, h: Head, f: Fields, sent: &[u8], received: &[u8]) {
    let mut trace = [0u16; 525];
    let e = encode::encode(
        h.protocol,
        h.pec,
        Address(f.address),
        f.direction,
        f.command,
        sent,
        received,
        &mut trace,
    );
    put_encoded(page, e, &trace);
}

// The bytes to be sent and to be received stand from two places on.
pub(crate) fn encode(
    page: &mut Page,
    h: Head,
    f: Fields,
    text: &[u8],
    sent: usize,
    received: usize,
) {
    let mut first = [0u8; 8192];
    let sent = bytes(text, sent, &mut first);
    let mut second = [0u8; 8192];
    let received = bytes(text, received, &mut second);
    encoded(page, h, f, sent, received);
}

// What a trace says.
fn decoded(page: &mut Page, h: Head, trace: &[u16]) {
    let mut sent = [0u8; 255];
    let mut received = [0u8; 255];
    let d = decode::decode(h.protocol, h.pec, trace, &mut sent, &mut received);
    put_decoded(page, d, &sent, &received);
}

// What the symbols from a place on say.
pub(crate) fn decode(page: &mut Page, h: Head, text: &[u8], from: usize) {
    let mut buffer = [0u16; 8192];
    decoded(page, h, symbols(text, from, &mut buffer));
}
