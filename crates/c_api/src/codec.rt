// The codec over traces of byte pairs, and the last data phase of a transaction.
ghost use Rattle.std.specs.Prelude.{◌/◌, length};
ghost use Rattle.encode.specs.Encode.{message};
ghost use Rattle.pairs.specs.Pairs.{symbols_in};
ghost use Rattle.c_codec.specs.Numbers.{truth};
ghost use Rattle.c_codec.specs.Codec.{WrotePairs, ReadSymbols};
ghost use Rattle.c_codec.specs.LastData.{phase_of, Copied};

use c_codec::answer::HbDecoded;
use c_codec::codec::{HbWritten, decode_pairs, encode_pairs};
use c_codec::last_data::{HbPart, put_last_data};

// The encoder.
#[unsafe(no_mangle)]
pub extern "C" fn hb_encode(
    protocol: u8,
    pec: u8,
    address: u8,
    direction: u8,
    command: u8,
    sent: &[u8],
    received: &[u8],
    out: &mut [u8],
) -> HbWritten
    ensures { WrotePairs protocol (truth pec) (message address direction command sent.now received.now) out.old result out.new }
{
    encode_pairs(
        protocol, pec, address, direction, command, sent, received, out,
    )
}

// The decoder.
#[unsafe(no_mangle)]
pub extern "C" fn hb_decode(
    protocol: u8,
    pec: u8,
    trace: &[u8],
    sent: &mut [u8],
    received: &mut [u8],
) -> HbDecoded
    ensures { ReadSymbols protocol (truth pec) (symbols_in (length trace.now / 2) trace.now) sent.old received.old result sent.new received.new }
{
    decode_pairs(protocol, pec, trace, sent, received)
}

// The last data phase, copied to the front of a buffer. m and n are the lengths that the transaction has sent and received.
#[unsafe(no_mangle)]
pub extern "C" fn hb_last_data<'a>(
    protocol: u8,
    m: usize,
    n: usize,
    sent: &'a [u8],
    received: &'a [u8],
    out: &mut [u8],
) -> HbPart
    ensures { Copied (phase_of protocol m n sent.now received.now) out.old result out.new }
{
    put_last_data(protocol, m, n, sent, received, out)
}
