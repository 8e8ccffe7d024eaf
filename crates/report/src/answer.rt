// What a model run answers. Rests on arp for how a pass ended; the scope's numbers are in arp's and targets' specs/Numbers.
ghost use Rattle.std.specs.Prelude.{◌≡◌};
ghost use Rattle.arp.specs.Numbers.{command_number};
ghost use Rattle.report.specs.Report.{number_in, udid_in, refused_answer, reported};

use super::bindings_of::bound_set;
use arp::state::Stepped;
use bindings::answer::ModelAnswer;
use commands::command::{End, Handed};
use pool::Pool;
use udid::Udid;

const NOBODY: Udid = Udid { high: 0, low: 0 };

// A refusal with its record: every other part is zero.
pub fn refused(n: u32, i: usize) -> ModelAnswer
    ensures { result ≡ refused_answer n i }
{
    ModelAnswer {
        answer: n,
        place: i,
        udid: NOBODY,
        bound: Pool::empty(),
        count: 0,
        gets: 0,
        picked: 0,
    }
}

// The number of what was handed out last; 0 where no pass has begun, and for a command or a choice that waits: no pass of the model stops
// there.
// Kept: the answer is a number, the scope's. C reads it of hb_run_model (ModelAnswer).
fn number_of(k: Handed) -> u32
    ensures { result ≡ number_in (command_number k) }
{
    match k {
        Handed::Wait(End::NoneFree(_)) => 13,
        Handed::Wait(End::Abandoned) => 14,
        Handed::Wait(End::NotOutstanding) => 21,
        _ => 0,
    }
}

// The target that it names; zero where it names none.
fn asked_by(k: Handed) -> Udid
    ensures { result ≡ udid_in (command_number k) }
{
    match k {
        Handed::Wait(End::NoneFree(u)) => u,
        _ => NOBODY,
    }
}

// What a pass answers that ended so.
pub fn report(last: Stepped) -> ModelAnswer
    ensures { result ≡ reported last }
{
    let Stepped { state, command } = last;
    let bound = bound_set(state.slots);
    ModelAnswer {
        answer: number_of(command),
        place: 0,
        udid: asked_by(command),
        bound,
        count: bound.used(),
        gets: state.gets,
        picked: state.picked,
    }
}
