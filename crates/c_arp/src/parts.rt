// Identifiers and sets of addresses as structs of two halves, to C and from C.
ghost use Rattle.std.specs.Prelude.{◌≡◌};
ghost use Rattle.c_arp.specs.Parts.{pool_in, told_pool, udid_in, told_udid};

use pool::Pool;
use udid::Udid;

// A device identifier: the first eight bytes on the wire are the high half.
#[repr(C)]
#[derive(Clone, Copy)]
pub struct HbUdid {
    pub high: u64,
    pub low: u64,
}

// A set of addresses: bit k of low is address k, bit k of high is address 64 + k.
#[repr(C)]
#[derive(Clone, Copy)]
pub struct HbPool {
    pub low: u64,
    pub high: u64,
}

// An identifier for C.
impl From<Udid> for HbUdid {
    ghost from_gives = { λ u h. h ≡ told_udid u };

    fn from(u: Udid) -> HbUdid {
        let Udid { high, low } = u;
        HbUdid { high, low }
    }
}

// A set of addresses for C.
impl From<Pool> for HbPool {
    ghost from_gives = { λ p h. h ≡ told_pool p };

    fn from(p: Pool) -> HbPool {
        let Pool { low, high } = p;
        HbPool { low, high }
    }
}

// The identifier that C gave.
impl From<HbUdid> for Udid {
    ghost from_gives = { λ h u. u ≡ udid_in h };

    fn from(h: HbUdid) -> Udid {
        let HbUdid { high, low } = h;
        Udid { high, low }
    }
}

// The set of addresses that C gave.
impl From<HbPool> for Pool {
    ghost from_gives = { λ h p. p ≡ pool_in h };

    fn from(h: HbPool) -> Pool {
        let HbPool { low, high } = h;
        Pool { low, high }
    }
}
