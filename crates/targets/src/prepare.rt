// Prepare To ARP: it reaches all targets. Rests on fields for where the flag stands; specs/ChangeLaws says what it does byte by byte.
ghost use Rattle.std.specs.Prelude.{◌≡◌};
ghost use Rattle.targets.specs.Target.{cleared};
ghost use Rattle.targets.specs.Records.{targets_of, records_with};

use super::fields::{FLAG_AT, RECORD};

// The flag of every record is cleared, and nothing else changes.
pub fn prepare(records: &mut [u8])
    ensures { records.new ≡ records_with (cleared (targets_of records.old)) records.old }
{
    for i in 0..records.len() / RECORD {
        records[i * RECORD + FLAG_AT] = 0;
    }
}
