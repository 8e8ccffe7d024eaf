// One entry of the binding buffer, written and read. Rests on udid; what the buffer holds once all are written is in proofs/BufferLaws.
ghost use Rattle.std.specs.Prelude.{◌≡◌};
ghost use Rattle.bindings.specs.Entries.{put_entry, read_udid};

use udid::Udid;
use wire::address::Address;

// The bytes of the whole buffer, 16 for each of the 128 addresses.
pub const BUFFER: usize = 2048;

// The 16 bytes of an address: the identifier that is bound there, zeros where nobody is. A buffer that ends before them stays as it
// is, and so it does where the number is above 127: that is no address.
pub fn put_entry(out: &mut [u8], a: Address, e: Option<Udid>)
    ensures { out.new ≡ put_entry out.old a.0 e }
{
    if a.0 > 127 {
        return;
    }
    let u = e.unwrap_or(Udid::ZERO);
    let n = a.0 as usize;
    u.put_bytes(&mut out[..], 16 * n);
}

// The identifier that stands at an address; at a number above 127, zeros.
pub fn udid_at(buffer: &[u8], a: Address) -> Udid
    ensures { result ≡ read_udid buffer.now a.0 }
{
    if a.0 > 127 {
        return Udid::ZERO;
    }
    let n = a.0 as usize;
    Udid::from_bytes(buffer, 16 * n)
}
