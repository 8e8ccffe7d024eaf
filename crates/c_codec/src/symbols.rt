// The codec on symbols as 16-bit numbers: nothing is turned into pairs.
ghost use Rattle.encode.specs.Encode.{message};
ghost use Rattle.c_codec.specs.Numbers.{truth};
ghost use Rattle.c_codec.specs.Codec.{WroteSymbols, ReadSymbols};

use crate::answer::HbDecoded;
use crate::codec::{HbWritten, written};
use encode::EncodeError;
use wire::address::Address;

// The encoder.
pub fn encode_symbols(
    protocol: u8,
    pec: u8,
    address: u8,
    direction: u8,
    command: u8,
    sent: &[u8],
    received: &[u8],
    out: &mut [u16],
) -> HbWritten
    ensures { WroteSymbols protocol (truth pec) (message address direction command sent.now received.now) out.old result out.new }
{
    let r = encode::encode(
        protocol,
        pec != 0,
        Address(address),
        direction,
        command,
        sent,
        received,
        out,
    );
    match r {
        Ok(n) => written(0, n as u32),
        Err(EncodeError::Forbidden) => written(1, 0),
        Err(EncodeError::OutputTooShort) => written(2, 0),
    }
}

// The decoder.
pub fn decode_symbols(
    protocol: u8,
    pec: u8,
    trace: &[u16],
    sent: &mut [u8],
    received: &mut [u8],
) -> HbDecoded
    ensures { ReadSymbols protocol (truth pec) trace.now sent.old received.old result sent.new received.new }
{
    decode::decode(protocol, pec != 0, trace, sent, received).into()
}
