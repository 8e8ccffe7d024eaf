// Equality and order of identifiers. The order is that of their bytes on the wire: the first byte that differs decides
// (proofs/UdidLaws, below_bytes). Rests on the halves alone.
ghost use Rattle.std.specs.Prelude.{◌≡◌};
ghost use Rattle.udid.specs.Udids.{same_udid, is_below};

use super::Udid;

// Kept: the two names. Their clauses say of the derived == and < what same_udid and is_below say, which C relies on
// (hb_udid_is_same, hb_udid_is_below).
impl Udid {
    pub fn is_same(self, other: Udid) -> bool
        ensures { result ≡ same_udid self other }
    {
        self == other
    }

    // It comes before the other.
    pub fn is_below(self, other: Udid) -> bool
        ensures { result ≡ is_below self other }
    {
        self < other
    }
}
