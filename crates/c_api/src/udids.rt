// Device identifiers. The first eight bytes on the wire are the high half.
ghost use Rattle.std.specs.Prelude.{◌≡◌};
ghost use Rattle.udid.specs.Udids.{same_udid, is_below, is_fixed};
ghost use Rattle.udid.specs.Bytes.{udid_at, udid_bytes, put_at};
ghost use Rattle.c_codec.specs.Numbers.{bit};
ghost use Rattle.c_arp.specs.Parts.{udid_in, told_udid};

use c_arp::parts::HbUdid;
use udid::Udid;

// The identifier whose bytes stand from a place on; a byte that is not there counts as zero.
#[unsafe(no_mangle)]
pub extern "C" fn hb_udid_from_bytes(s: &[u8], at: usize) -> HbUdid
    ensures { result ≡ told_udid (udid_at s.now at) }
{
    Udid::from_bytes(s, at).into()
}

// The 16 bytes from a place on. A buffer that ends before them stays as it is.
#[unsafe(no_mangle)]
pub extern "C" fn hb_udid_put_bytes(udid: HbUdid, out: &mut [u8], at: usize)
    ensures { out.new ≡ put_at out.old at (udid_bytes (udid_in udid)) }
{
    Udid::from(udid).put_bytes(out, at);
}

// 1 where both are the same.
#[unsafe(no_mangle)]
pub extern "C" fn hb_udid_is_same(one: HbUdid, other: HbUdid) -> u8
    ensures { result ≡ bit (same_udid (udid_in one) (udid_in other)) }
{
    u8::from(Udid::from(one).is_same(other.into()))
}

// 1 where the first comes before the second: the one that wins on the wire.
#[unsafe(no_mangle)]
pub extern "C" fn hb_udid_is_below(one: HbUdid, other: HbUdid) -> u8
    ensures { result ≡ bit (is_below (udid_in one) (udid_in other)) }
{
    u8::from(Udid::from(one).is_below(other.into()))
}

// 1 for the identifier of a target whose address is fixed.
#[unsafe(no_mangle)]
pub extern "C" fn hb_udid_is_fixed(udid: HbUdid) -> u8
    ensures { result ≡ bit (is_fixed (udid_in udid)) }
{
    u8::from(Udid::from(udid).is_fixed())
}
