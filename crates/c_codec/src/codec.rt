// The codec over traces of byte pairs.
ghost use Rattle.std.specs.Prelude.{◌≡◌, ◌/◌, length};
ghost use Rattle.encode.specs.Encode.{message};
ghost use Rattle.c_codec.specs.Numbers.{truth};
ghost use Rattle.pairs.specs.Pairs.{symbols_in};
ghost use Rattle.c_codec.specs.Codec.{answer_of, WrotePairs, ReadSymbols};

use crate::answer::HbDecoded;
use pairs::{get_pairs, put_pairs};
use wire::address::Address;

// The answer's number, and the symbols that were written.
#[repr(C)]
#[derive(Clone, Copy)]
pub struct HbWritten {
    pub answer: u32,
    pub symbols: u32,
}

// The two as a struct.
pub fn written(answer: u32, symbols: u32) -> HbWritten
    ensures { result ≡ answer_of answer symbols }
{
    HbWritten { answer, symbols }
}

// The encoder into a trace of byte pairs: the longest has 525 symbols.
pub fn encode_pairs(
    protocol: u8,
    pec: u8,
    address: u8,
    direction: u8,
    command: u8,
    sent: &[u8],
    received: &[u8],
    out: &mut [u8],
) -> HbWritten
    ensures { WrotePairs protocol (truth pec) (message address direction command sent.now received.now) out.old result out.new }
{
    let mut buf = [0u16; 525];
    let r = encode::encode(
        protocol,
        pec != 0,
        Address(address),
        direction,
        command,
        sent,
        received,
        &mut buf,
    );
    let Ok(n) = r else {
        return written(1, 0);
    };
    if put_pairs(out, &buf[..n]) {
        return written(0, n as u32);
    }
    written(2, 0)
}

// The decoder of a trace of byte pairs. No trace that fits has more than 525 symbols, so the first 526 decide.
pub fn decode_pairs(
    protocol: u8,
    pec: u8,
    trace: &[u8],
    sent: &mut [u8],
    received: &mut [u8],
) -> HbDecoded
    ensures { ReadSymbols protocol (truth pec) (symbols_in (length trace.now / 2) trace.now) sent.old received.old result sent.new received.new }
{
    let mut buf = [0u16; 526];
    let n = get_pairs(&mut buf, trace);
    decode::decode(protocol, pec != 0, &buf[..n], sent, received).into()
}
