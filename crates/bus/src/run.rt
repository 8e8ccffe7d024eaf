// The model run: refusals 1, 2, 9, 10, 11 and 12, or a whole pass. Rests on targets for the refusals, on pass, and on crate report.
ghost use Rattle.std.specs.Prelude.{◌≡◌, ◌≤◌, length, Ok};
ghost use Rattle.pool.specs.Start.{barred_pool};
ghost use Rattle.targets.specs.Records.{targets_of};
ghost use Rattle.targets.specs.Refusals.{checked_list};
ghost use Rattle.bindings.specs.Entries.{buffer_size};
ghost use Rattle.rule.specs.Bus.{pass};
ghost use Rattle.bus.specs.Run.{Leaves, ended_end, model_end};
ghost use Rattle.bus.specs.Refused.{error_number, error_place, answer_in};
ghost use Rattle.bus.specs.declared.run.ModelError.TheVariants.{Targets};

use super::pass::run_pass;
use bindings::answer::ModelAnswer;
use bindings::buffer::BUFFER;
use pool::Pool;
use report::answer::{refused, report};
use report::bindings_of::put_bindings;
use targets::admit;
use targets::admit::ListError;

// Why a run is refused.
#[derive(Clone, Copy)]
enum ModelError {
    // above 127
    LastPick,
    // fewer than 2,048 bytes
    ShortBuffer,
    Targets(ListError),
}

impl ModelError {
    // The scope's number of the refusal.
    fn number(self) -> u32
        ensures { result ≡ error_number self }
    {
        match self {
            ModelError::LastPick => 1,
            ModelError::ShortBuffer => 2,
            ModelError::Targets(e) => e.number(),
        }
    }

    // The record that is refused; 0 where none is.
    fn place(self) -> usize
        ensures { result ≡ error_place self }
    {
        match self {
            ModelError::LastPick | ModelError::ShortBuffer => 0,
            ModelError::Targets(e) => e.place(),
        }
    }
}

impl From<ListError> for ModelError {
    ghost from_gives = { λ e r. r ≡ Targets e };

    fn from(e: ListError) -> ModelError {
        ModelError::Targets(e)
    }
}

// A list that is not refused.
fn run_admitted(occupied: Pool, last: u8, records: &mut [u8], bindings: &mut [u8]) -> ModelAnswer
    requires { (checked_list (barred_pool occupied) records.old ≡ Ok tt) × (buffer_size ≤ length bindings.old) }
    ensures { Leaves (ended_end (pass occupied last (targets_of records.old)) records.old bindings.old) result records.new bindings.new }
{
    let end = run_pass(occupied, last, &mut records[..]);
    let state = end.state;
    let slots = state.slots;
    put_bindings(&mut bindings[..], slots);
    report(end)
}

// Or why not.
fn try_model(
    occupied: Pool,
    last: u8,
    records: &mut [u8],
    bindings: &mut [u8],
) -> Result<ModelAnswer, ModelError>
    ensures { Leaves (model_end occupied last records.old bindings.old) (answer_in result) records.new bindings.new }
{
    if last > 127 {
        return Err(ModelError::LastPick);
    }
    if bindings.len() < BUFFER {
        return Err(ModelError::ShortBuffer);
    }
    admit::check(&records[..], occupied)?;
    Ok(run_admitted(occupied, last, &mut records[..], &mut bindings[..]))
}

// The last pick is given, 127 if none ever was, and above 127 is refused; the answer has what it is then. The records take each target's
// address byte and flag, the first 2,048 bytes of the binding buffer the identifier of address a at 16 a.
pub fn run_model(occupied: Pool, last: u8, records: &mut [u8], bindings: &mut [u8]) -> ModelAnswer
    ensures { Leaves (model_end occupied last records.old bindings.old) result records.new bindings.new }
{
    match try_model(occupied, last, &mut records[..], &mut bindings[..]) {
        Ok(answer) => answer,
        Err(e) => refused(e.number(), e.place()),
    }
}
