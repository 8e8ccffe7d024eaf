// Whether an address that is given to a target is claimed by two. Rests on crates slots and pool.
ghost use Rattle.std.specs.Prelude.{◌≡◌};
ghost use Rattle.picking.specs.Claims.{is_held, makes_claim, binding_for};

use pool::Pool;
use slots::Binding;
use udid::Udid;
use wire::address::Address;

// A target is bound there, or two claim it.
fn is_held(held: Binding) -> bool
    ensures { result ≡ is_held held }
{
    match held {
        Binding::Open => false,
        Binding::Bound(_) => true,
        Binding::Claimed => true,
        Binding::Left => false,
    }
}

// Whether an Assign that completes makes a claim of the address, which is known for this: it is barred, or a target is bound there, or
// two claim it already.
pub fn makes_claim(occupied: Pool, held: Binding, a: Address) -> bool
    ensures { result ≡ makes_claim occupied held a.0 }
{
    let barred = Pool::barred(occupied);
    if barred.has(a) {
        return true;
    }
    is_held(held)
}

// What an address is known for after an Assign that completed: it is claimed by two where it was taken.
pub fn binding_for(taken: bool, u: Udid) -> Binding
    ensures { result ≡ binding_for taken u }
{
    if taken {
        Binding::Claimed
    } else {
        Binding::Bound(u)
    }
}
