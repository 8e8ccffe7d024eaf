// Assign Address: it reaches the target with that identifier. Rests on fields and udid; specs/ChangeLaws says what it does byte by byte.
ghost use Rattle.std.specs.Prelude.{◌≡◌, ◌+◌, ◌*◌, ◌≤◌, length};
ghost use Rattle.targets.specs.Target.{assigned_to};
ghost use Rattle.targets.specs.Records.{record_size, target_at, put_target, assigned_in};

use super::fields::{ADDRESS_AT, FLAG_AT, RECORD};
use udid::Udid;
use wire::address::Address;

// Record i takes the address and sets its flag, where the identifier is its own.
fn assign_one(records: &mut [u8], i: usize, u: Udid, a: Address)
    requires { i * record_size + record_size ≤ length records.old }
    ensures { records.new ≡ put_target i (assigned_to u a.0 (target_at records.old i)) records.old }
{
    if u.stands_at(&records[..], i * RECORD) {
        let w = a.for_read();
        records[i * RECORD + ADDRESS_AT] = w.0;
        records[i * RECORD + FLAG_AT] = 1;
    }
}

// Every record with that identifier takes the address and sets its flag, and nothing else changes. A number above 127 is no address:
// nothing changes at all.
pub fn assign(records: &mut [u8], u: Udid, a: Address)
    ensures { records.new ≡ assigned_in u a.0 records.old }
{
    if a.0 > 127 {
        return;
    }
    for i in 0..records.len() / RECORD {
        assign_one(&mut records[..], i, u, a);
    }
}
