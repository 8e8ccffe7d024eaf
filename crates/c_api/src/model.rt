// Target lists: the check, and the model run.
ghost use Rattle.std.specs.Prelude.{◌≡◌};
ghost use Rattle.pool.specs.Start.{barred_pool};
ghost use Rattle.targets.specs.Refusals.{checked_list};
ghost use Rattle.c_arp.specs.Check.{told_checked};
ghost use Rattle.c_arp.specs.Model.{RanModel};
ghost use Rattle.c_arp.specs.Parts.{pool_in};

use c_arp::check::{HbChecked, check_targets};
use c_arp::model::{HbModel, model_run};
use c_arp::parts::HbPool;

// Whether a target list is refused where these addresses are occupied.
#[unsafe(no_mangle)]
pub extern "C" fn hb_check_targets(occupied: HbPool, records: &[u8]) -> HbChecked
    ensures { result ≡ told_checked (checked_list (barred_pool (pool_in occupied)) records.now) }
{
    check_targets(occupied, records)
}

// A whole pass against targets, from a last pick.
#[unsafe(no_mangle)]
pub extern "C" fn hb_run_model(
    occupied: HbPool,
    last: u8,
    records: &mut [u8],
    bindings: &mut [u8],
) -> HbModel
    ensures { RanModel (pool_in occupied) last records.old bindings.old result records.new bindings.new }
{
    model_run(occupied, last, records, bindings)
}
