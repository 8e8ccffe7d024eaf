// What each address is known for. `held_at` is the one reader, `put` the one writer, `none` where a pass begins. Rests on crates pool and udid.
#![tactic(auto)]

ghost use Rattle.std.specs.Prelude.{◌≡◌};
ghost use Rattle.slots.specs.Slots.{held_at, with_binding, no_bindings};
ghost use Rattle.slots.specs.declared.Binding.TheVariants.{Open, Bound, Claimed, Left};

use pool::Pool;
use udid::Udid;
use wire::address::Address;

pub mod find;

// What an address is known for in this pass: nothing; the target bound there; that two targets claim it; that its target was reported gone.
#[derive(Clone, Copy)]
pub enum Binding {
    Open,
    Bound(Udid),
    Claimed,
    Left,
}

#[derive(Clone, Copy)]
pub struct Slots {
    // The addresses to which a target is bound.
    pub bound: Pool,
    // The addresses that two targets claim.
    pub claimed: Pool,
    // The addresses whose target was reported gone. The set may still have one that was bound or claimed since: `held_at` asks those
    // two first.
    pub left: Pool,
    // The identifier that is bound to each address.
    pub udids: [Udid; 128],
}

impl Slots {
    // Nothing is bound, claimed or left.
    pub fn none() -> Slots
        ensures { result ≡ no_bindings }
    {
        Slots {
            bound: Pool::empty(),
            claimed: Pool::empty(),
            left: Pool::empty(),
            udids: [Udid::ZERO; 128],
        }
    }

    // What the address is known for; a number above 127 is no address.
    pub fn held_at(self, a: Address) -> Binding
        ensures { result ≡ held_at self a.0 }
    {
        if a.0 > 127 {
            return Binding::Open;
        }
        if self.bound.has(a) {
            return Binding::Bound(self.udids[a.0 as usize]);
        }
        if self.claimed.has(a) {
            return Binding::Claimed;
        }
        if self.left.has(a) {
            return Binding::Left;
        }
        Binding::Open
    }

    // The slots with nothing at the address.
    fn put_open(mut self, a: Address) -> Slots
        ensures { result ≡ with_binding self a.0 Open }
    {
        self.bound = self.bound.without(a);
        self.claimed = self.claimed.without(a);
        self.left = self.left.without(a);
        self
    }

    // The slots with the target bound to the address.
    fn put_bound(mut self, a: Address, u: Udid) -> Slots
        ensures { result ≡ with_binding self a.0 (Bound u) }
    {
        if a.0 > 127 {
            return self;
        }
        self.bound = self.bound.with(a);
        self.udids[a.0 as usize] = u;
        self
    }

    // The slots with the address claimed by two.
    fn put_claimed(mut self, a: Address) -> Slots
        ensures { result ≡ with_binding self a.0 Claimed }
    {
        self.bound = self.bound.without(a);
        self.claimed = self.claimed.with(a);
        self
    }

    // The slots with the target of the address reported gone.
    fn put_left(mut self, a: Address) -> Slots
        ensures { result ≡ with_binding self a.0 Left }
    {
        self.bound = self.bound.without(a);
        self.claimed = self.claimed.without(a);
        self.left = self.left.with(a);
        self
    }

    // The slots with the address known for this. A number above 127 is no address: they are what they were.
    pub fn put(self, a: Address, held: Binding) -> Slots
        ensures { result ≡ with_binding self a.0 held }
    {
        match held {
            Binding::Open => self.put_open(a),
            Binding::Bound(u) => self.put_bound(a, u),
            Binding::Claimed => self.put_claimed(a),
            Binding::Left => self.put_left(a),
        }
    }
}
