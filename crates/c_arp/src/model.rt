// The model run for C: target records and a binding buffer lent as bytes, the answer as a struct of numbers.
ghost use Rattle.std.specs.Prelude.{◌≡◌};
ghost use Rattle.c_arp.specs.Parts.{pool_in};
ghost use Rattle.c_arp.specs.Model.{RanModel, told_model};

use crate::parts::{HbPool, HbUdid};
use bindings::answer::ModelAnswer;
use bus::run::run_model;

// The scope's number; how many addresses are bound, the Get UDIDs sent, and the last pick; the record of a refusal; with 13 the
// identifier that asked; and the bound addresses. Whatever an answer lacks is 0.
#[repr(C)]
#[derive(Clone, Copy)]
pub struct HbModel {
    pub answer: u32,
    pub count: u32,
    pub gets: u32,
    pub picked: u32,
    pub place: usize,
    pub udid: HbUdid,
    pub bound: HbPool,
}

// The answer in these numbers.
impl From<ModelAnswer> for HbModel {
    ghost from_gives = { λ a h. h ≡ told_model a };

    fn from(a: ModelAnswer) -> HbModel {
        HbModel {
            answer: a.answer,
            count: a.count,
            gets: a.gets,
            picked: u32::from(a.picked),
            place: a.place,
            udid: a.udid.into(),
            bound: a.bound.into(),
        }
    }
}

// A whole pass against targets, with these addresses occupied and this last pick.
pub fn model_run(occupied: HbPool, last: u8, records: &mut [u8], bindings: &mut [u8]) -> HbModel
    ensures { RanModel (pool_in occupied) last records.old bindings.old result records.new bindings.new }
{
    run_model(occupied.into(), last, records, bindings).into()
}
