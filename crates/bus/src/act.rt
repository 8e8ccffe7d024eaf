// What a command means for the targets; that its symbols on the bus do just that is effect_as_meant in rule/specs/EffectLaws. Rests on targets.
ghost use Rattle.std.specs.Prelude.{◌≡◌};
ghost use Rattle.targets.specs.Records.{targets_of, records_with};
ghost use Rattle.rule.specs.Acted.{acted};
ghost use Rattle.bus.specs.Turn.{Reaches};

use commands::command::{Command, Handed};
use targets::{assign, prepare};

// Prepare To ARP clears every flag, Assign Address reaches the target with that identifier, and Get UDID changes nothing.
fn act_on(k: Command, records: &mut [u8])
    requires { Reaches (Handed.Send k) (targets_of records.old) }
    ensures { records.new ≡ records_with (acted (Handed.Send k) (targets_of records.old)) records.old }
{
    match k {
        Command::Prepare => prepare::prepare(&mut records[..]),
        Command::GetUdid => {}
        Command::Assign(u, a) => assign::assign(&mut records[..], u, a),
    }
}

// What is handed out; an end changes nothing.
pub(crate) fn act(k: Handed, records: &mut [u8])
    requires { Reaches k (targets_of records.old) }
    ensures { records.new ≡ records_with (acted k (targets_of records.old)) records.old }
{
    if let Handed::Send(c) = k {
        act_on(c, &mut records[..]);
    }
}
