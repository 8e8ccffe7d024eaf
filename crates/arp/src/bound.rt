// The state with a target unbound, and with it bound. Rests on crates picking, slots and pool.
ghost use Rattle.std.specs.Prelude.{◌≡◌};
ghost use Rattle.arp.specs.Bindings.{vacated, freed, bound};

use super::state::Controller;
use picking::claim::{binding_for, makes_claim};
use pool::Pool;
use slots::Binding;
use udid::Udid;
use wire::address::Address;

// Kept: the state is changed in its place, field by field. A new Controller with ..self copies its 2 KB some four times more in a step, and
// bench/step.sh misses its bar of 3,500 instructions.
impl Controller {
    // The state where nobody is bound to the address any more, and it is known for this. It is out of the pool then, unless the starting
    // pool has it.
    pub(crate) fn vacate(mut self, a: Address, held: Binding) -> Controller
        ensures { result ≡ vacated self a.0 held }
    {
        let starting = Pool::starting(self.occupied);
        let pool = self.pool;
        let slots = self.slots;
        self.slots = slots.put(a, held);
        if starting.has(a) {
            return self;
        }
        self.pool = pool.without(a);
        self
    }

    // The state with the target unbound and its address vacated; as it is where the target is not bound.
    pub(crate) fn free(self, u: Udid) -> Controller
        ensures { result ≡ freed self u }
    {
        match self.slots.find(u) {
            Some(a) => self.vacate(a, Binding::Open),
            None => self,
        }
    }

    // The state with the target bound to the address, or the address claimed by two; the address is in the pool then.
    pub(crate) fn bind(mut self, u: Udid, a: Address) -> Controller
        ensures { result ≡ bound self u a.0 }
    {
        if a.0 > 127 {
            return self;
        }
        let slots = self.slots;
        let taken = makes_claim(self.occupied, slots.held_at(a), a);
        let pool = self.pool;
        self.slots = slots.put(a, binding_for(taken, u));
        self.pool = pool.with(a);
        self
    }
}
