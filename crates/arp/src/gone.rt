// The report that the module at an address is gone. Rests on bound and lookup.
ghost use Rattle.std.specs.Prelude.{◌≡◌};
ghost use Rattle.arp.specs.Gone.{is_bound_target, reported};

use super::lookup::Found;
use super::state::Controller;
use slots::Binding;
use wire::address::Address;

// The state after a report, and its answer: what a lookup of the address answered just before.
#[derive(Clone, Copy)]
pub struct Reported {
    pub state: Controller,
    pub found: Found,
}

// Whether a lookup found a target that is bound.
fn is_bound_target(found: Found) -> bool
    ensures { result ≡ is_bound_target found }
{
    matches!(found, Found::Bound(_))
}

impl Controller {
    // The module at the address is gone: its target is unbound, and the address is left until it is bound again or a pass starts. Where
    // no target is bound nothing changes. It may be reported at any time; a command that is outstanding stays so.
    #[tactic(auto, unfolding(crate::specs::Gone::reported))]
    pub fn report_gone(self, a: Address) -> Reported
        ensures { result ≡ reported self a.0 }
    {
        let found = self.lookup(a);
        let state = if is_bound_target(found) {
            self.vacate(a, Binding::Left)
        } else {
            self
        };
        Reported { state, found }
    }
}
