// What only the benchmark of the codec calls: the codec on symbols as 16-bit numbers, declared in bench/symbols.h. Nothing is turned into
// byte pairs there, so that what is counted is the codec's work alone. C has traces as byte pairs, by crate c_api.
// Its archive has these two functions and no others: a benchmark links libc_api.a beside it.
#![tactic(auto)]

ghost use Rattle.encode.specs.Encode.{message};
ghost use Rattle.c_codec.specs.Numbers.{truth};
ghost use Rattle.c_codec.specs.Codec.{WroteSymbols, ReadSymbols};

use c_codec::answer::HbDecoded;
use c_codec::codec::HbWritten;
use c_codec::symbols::{decode_symbols, encode_symbols};

// The encoder.
#[unsafe(no_mangle)]
pub extern "C" fn hb_encode_symbols(
    protocol: u8,
    pec: u8,
    address: u8,
    direction: u8,
    command: u8,
    sent: &[u8],
    received: &[u8],
    out: &mut [u16],
) -> HbWritten
    ensures { WroteSymbols protocol (truth pec) (message address direction command sent.now received.now) out.old result out.new }
{
    encode_symbols(
        protocol, pec, address, direction, command, sent, received, out,
    )
}

// The decoder.
#[unsafe(no_mangle)]
pub extern "C" fn hb_decode_symbols(
    protocol: u8,
    pec: u8,
    trace: &[u16],
    sent: &mut [u8],
    received: &mut [u8],
) -> HbDecoded
    ensures { ReadSymbols protocol (truth pec) trace.now sent.old received.old result sent.new received.new }
{
    decode_symbols(protocol, pec, trace, sent, received)
}
