// The set of bound addresses, one address after the other. Rests on udid and pool; what it has in the end is in proofs/BoundLaws.
ghost use Rattle.std.specs.Prelude.{◌≡◌};
ghost use Rattle.bindings.specs.Entries.{with_entry};

use pool::Pool;
use udid::Udid;
use wire::address::Address;

// The set with an address where something is bound to it.
pub fn with_entry(bound: Pool, a: Address, e: Option<Udid>) -> Pool
    ensures { result ≡ with_entry bound a.0 e }
{
    match e {
        Some(_) => bound.with(a),
        None => bound,
    }
}
