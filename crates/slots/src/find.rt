// Where a target is bound. Rests on the slots.
ghost use Rattle.std.specs.Prelude.{◌≡◌};
ghost use Rattle.udid.specs.Udids.{same_udid};
ghost use Rattle.slots.specs.Finding.{find_from, address_found};

use super::Slots;
use udid::Udid;
use wire::address::Address;

// The same identifier.
// The low halves are compared first: they tell most targets apart, and a look through the slots is what a step costs most.
fn is_same(held: Udid, u: Udid) -> bool
    ensures { result ≡ same_udid held u }
{
    held.low == u.low && held.high == u.high
}

impl Slots {
    // The lowest address that the target is bound to.
    pub fn find(self, u: Udid) -> Option<Address>
        ensures { result ≡ address_found (find_from u self 128 0) }
    {
        for n in 0..128u8 {
            if is_same(self.udids[n as usize], u) && self.bound.has(Address(n)) {
                return Some(Address(n));
            }
        }
        None
    }
}
