// A byte of an identifier, by its place on the wire. A place counts modulo 16, so there is a byte at every place. Rests on udid alone.
ghost use Rattle.std.specs.Prelude.{◌≡◌, ◌%◌, get_or};
ghost use Rattle.udid.specs.Bytes.{bytes_of, udid_bytes};

use udid::Udid;

// Byte k of a half, highest first.
fn half_byte(n: u64, k: u8) -> u8
    ensures { result ≡ get_or (bytes_of 8 n) (k % 8) 0 }
{
    n.to_be_bytes()[(k % 8) as usize]
}

// Byte k of an identifier on the wire, highest first.
pub fn byte_of(u: Udid, k: u8) -> u8
    ensures { result ≡ get_or (udid_bytes u) (k % 16) 0 }
{
    if k % 16 < 8 {
        half_byte(u.high, k)
    } else {
        half_byte(u.low, k)
    }
}
