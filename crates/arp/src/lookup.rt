// The lookup by address: the target that is bound there in the present pass. Rests on the state alone.
ghost use Rattle.std.specs.Prelude.{◌≡◌};
ghost use Rattle.arp.specs.Lookup.{looked_up};

use super::state::Controller;
use slots::Binding;
use udid::Udid;
use wire::address::Address;

#[derive(Clone, Copy)]
pub enum Found {
    // This target is bound there.
    Bound(Udid),
    // Nobody is.
    Nobody,
    // Two targets claim it.
    Two,
    // Its target was reported gone.
    Left,
    // The number is above 127.
    NoAddress,
}

impl Controller {
    pub fn lookup(self, a: Address) -> Found
        ensures { result ≡ looked_up self a.0 }
    {
        if a.0 > 127 {
            return Found::NoAddress;
        }
        match self.slots.held_at(a) {
            Binding::Open => Found::Nobody,
            Binding::Bound(u) => Found::Bound(u),
            Binding::Claimed => Found::Two,
            Binding::Left => Found::Left,
        }
    }
}
