// One command on the bus: its trace stands there, and the targets act on it. Rests on traces and act.
ghost use Rattle.std.specs.Prelude.{◌≡◌, ◌≤◌, length, take};
ghost use Rattle.targets.specs.Records.{targets_of, records_with};
ghost use Rattle.rule.specs.Acknowledge.{on_bus};
ghost use Rattle.rule.specs.Acted.{acted};
ghost use Rattle.bus.specs.Sizes.{trace_room};
ghost use Rattle.bus.specs.Turn.{Fit, Reaches};

use super::act::act;
use super::traces::put_trace;
use commands::command::Handed;

// The trace goes to the front of the output; how many symbols it has.
pub(crate) fn send(k: Handed, records: &mut [u8], out: &mut [u16]) -> usize
    requires { Fit records.old × Reaches k (targets_of records.old) × (trace_room ≤ length out.old) }
    ensures { (result ≤ trace_room) × (take result out.new ≡ on_bus k (targets_of records.old)) × (records.new ≡ records_with (acted k (targets_of records.old)) records.old) }
{
    let n = put_trace(k, &records[..], &mut out[..]);
    act(k, &mut records[..]);
    n
}
