// PEC, addresses, and the lengths of traces.
ghost use Rattle.std.specs.Prelude.{◌≡◌, ◌+◌, ◌*◌, ◌/◌, ◌%◌, ltb, eqb};
ghost use Rattle.wire.specs.Addresses.{is_reserved, is_listed};
ghost use Rattle.pec.specs.Pec.{pec_step, pec_from, pec_of};
ghost use Rattle.trace.specs.Lengths.{room_for};
ghost use Rattle.c_codec.specs.Numbers.{truth, bit};

use wire::address::{Address, WireByte};

// The packet error code after one byte more.
#[unsafe(no_mangle)]
pub extern "C" fn hb_pec_byte(pec: u8, byte: u8) -> u8
    ensures { result ≡ pec_step pec byte }
{
    pec::add_byte(pec, byte)
}

// The packet error code after more bytes.
#[unsafe(no_mangle)]
pub extern "C" fn hb_pec_bytes(pec: u8, s: &[u8]) -> u8
    ensures { result ≡ pec_from pec s.now }
{
    pec::add_bytes(pec, s)
}

// The packet error code of bytes.
#[unsafe(no_mangle)]
pub extern "C" fn hb_pec(s: &[u8]) -> u8
    ensures { result ≡ pec_of s.now }
{
    pec::of_bytes(s)
}

// The byte on the wire that asks the address for a write.
#[unsafe(no_mangle)]
pub extern "C" fn hb_wire_for_write(address: u8) -> u8
    ensures { result ≡ 2 * (address % 128) }
{
    Address(address).for_write().0
}

// The byte on the wire that asks the address for a read.
#[unsafe(no_mangle)]
pub extern "C" fn hb_wire_for_read(address: u8) -> u8
    ensures { result ≡ 2 * (address % 128) + 1 }
{
    Address(address).for_read().0
}

// The address that a byte on the wire carries.
#[unsafe(no_mangle)]
pub extern "C" fn hb_address_from_wire(byte: u8) -> u8
    ensures { result ≡ byte / 2 }
{
    Address::from_wire(WireByte(byte)).0
}

// 1 for a byte that asks for a read.
#[unsafe(no_mangle)]
pub extern "C" fn hb_wire_is_read(byte: u8) -> u8
    ensures { result ≡ bit (eqb (byte % 2) 1) }
{
    u8::from(WireByte(byte).is_read())
}

// 1 for a number of seven bits.
#[unsafe(no_mangle)]
pub extern "C" fn hb_is_seven_bit(address: u8) -> u8
    ensures { result ≡ bit (ltb address 128) }
{
    u8::from(Address(address).is_seven_bit())
}

// 1 for the default address.
#[unsafe(no_mangle)]
pub extern "C" fn hb_is_default(address: u8) -> u8
    ensures { result ≡ bit (eqb address 0x61) }
{
    u8::from(Address(address).is_default())
}

// 1 for the host's address.
#[unsafe(no_mangle)]
pub extern "C" fn hb_is_host(address: u8) -> u8
    ensures { result ≡ bit (eqb address 0x08) }
{
    u8::from(Address(address).is_host())
}

// 1 for the alert response address.
#[unsafe(no_mangle)]
pub extern "C" fn hb_is_alert_response(address: u8) -> u8
    ensures { result ≡ bit (eqb address 0x0C) }
{
    u8::from(Address(address).is_alert_response())
}

// 1 for an address on which no target may stand, not even a fixed one.
#[unsafe(no_mangle)]
pub extern "C" fn hb_is_reserved(address: u8) -> u8
    ensures { result ≡ bit (is_reserved address) }
{
    u8::from(Address(address).is_reserved())
}

// 1 for an address on a row of Table 17: it is never picked, and never kept by a movable target.
#[unsafe(no_mangle)]
pub extern "C" fn hb_is_listed(address: u8) -> u8
    ensures { result ≡ bit (is_listed address) }
{
    u8::from(Address(address).is_listed())
}

// The room in symbols that the encoder needs for so many bytes sent and received; 0 where it refuses the protocol, the PEC or a length.
#[unsafe(no_mangle)]
pub extern "C" fn hb_trace_length(protocol: u8, pec: u8, sent: usize, received: usize) -> usize
    ensures { result ≡ room_for protocol (truth pec) sent received }
{
    trace::length::room_for(protocol, pec != 0, sent, received)
}
