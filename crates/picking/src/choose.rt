// Which address a target gets, and why. Rests on crates pool and udid.
ghost use Rattle.std.specs.Prelude.{◌≡◌};
ghost use Rattle.lists.specs.Choice.{pick};
ghost use Rattle.picking.specs.Picking.{reason_of, has_to_pick, chosen};

use commands::command::Reason;
use pool::Pool;
use udid::Udid;
use wire::address::{Address, WireByte};

// Whether an address has to be picked for a target that replied with this identifier and this address byte, where these addresses are in
// use: its byte is FFh, or it is movable and its own address is in use.
pub fn has_to_pick(pool: Pool, u: Udid, b: u8) -> bool
    ensures { result ≡ has_to_pick pool u b }
{
    if b == 0xFF {
        return true;
    }
    if u.is_fixed() {
        return false;
    }
    pool.has(Address::from_wire(WireByte(b)))
}

// The address for such a target: where one has to be picked, the first free one after the last pick; else the target's own.
pub fn choose(pool: Pool, last: u8, u: Udid, b: u8) -> Option<Address>
    ensures { result ≡ chosen pool last u b }
{
    if has_to_pick(pool, u, b) {
        return pool.next_free(last);
    }
    Some(Address::from_wire(WireByte(b)))
}

// The last pick after the address a was chosen: a itself if it was picked, else what it was.
pub fn pick_after(picks: bool, a: Address, last: u8) -> u8
    ensures { result ≡ pick picks a.0 last }
{
    if picks { a.0 } else { last }
}

// Why an address is chosen: it is claimed by two if it is taken, whatever else; then picked; then a fixed target's own, or a movable one's.
pub fn reason_for(taken: bool, picks: bool, fixed: bool) -> Reason
    ensures { result ≡ reason_of taken picks fixed }
{
    if taken {
        return Reason::Claimed;
    }
    if picks {
        return Reason::Picked;
    }
    if fixed { Reason::Fixed } else { Reason::Kept }
}
