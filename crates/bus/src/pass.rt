// A whole pass over the records: the controller's step takes the trace of each command. Rests on arp and turn; that it is the pass bit by
// bit is in specs/GoingLaws.
ghost use Rattle.std.specs.Prelude.{◌≡◌, Ok};
ghost use Rattle.pool.specs.Start.{barred_pool};
ghost use Rattle.targets.specs.Records.{targets_of};
ghost use Rattle.targets.specs.Refusals.{checked_list};
ghost use Rattle.rule.specs.Bus.{pass};
ghost use Rattle.bus.specs.Turn.{is_sent, Matches};

use super::traces::TRACE_ROOM;
use super::turn::send;
use arp::state::{Controller, Stepped};
use commands::command::Handed;
use pool::Pool;

// More commands than a pass sends: by then it has ended (rule/specs/PassEndLaws).
const MOST_COMMANDS: u32 = 300;

// A command that goes on the bus, and no end of a pass.
fn is_sent(k: Handed) -> bool
    ensures { result ≡ is_sent k }
{
    matches!(k, Handed::Send(_))
}

pub(crate) fn run_pass(occupied: Pool, last: u8, records: &mut [u8]) -> Stepped
    requires { checked_list (barred_pool occupied) records.old ≡ Ok tt }
    ensures { Matches (pass occupied last (targets_of records.old)) result records.old records.new }
{
    let mut st = Controller::new(occupied, last).start();
    let mut out = [0u16; TRACE_ROOM];
    for _ in 0..MOST_COMMANDS {
        let k = st.command;
        if !is_sent(k) {
            return st;
        }
        let n = send(k, &mut records[..], &mut out[..]);
        st = st.state.step(&out[..n]);
    }
    st
}
