// Where a target drops out: the first bit in which its identifier differs from that of the one which stays. Rests on udid.
ghost use Rattle.std.specs.Prelude.{◌≡◌};
ghost use Rattle.arbitration.specs.Bits.{udid_bits};
ghost use Rattle.arbitration.specs.DropOut.{shared};

use udid::Udid;

// How many leading bits two identifiers share, which is the number of the first bit in which they differ: the leading zeros of the
// bits in which a half differs. 128 where the identifiers are equal.
pub fn drop_out(a: Udid, b: Udid) -> u32
    ensures { result ≡ shared (udid_bits a) (udid_bits b) }
{
    if a.high == b.high {
        64 + u64::leading_zeros(a.low ^ b.low)
    } else {
        u64::leading_zeros(a.high ^ b.high)
    }
}
