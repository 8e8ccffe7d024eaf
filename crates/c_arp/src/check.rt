// The check of a target list.
ghost use Rattle.std.specs.Prelude.{◌≡◌};
ghost use Rattle.pool.specs.Start.{barred_pool};
ghost use Rattle.targets.specs.Refusals.{checked_list};
ghost use Rattle.c_arp.specs.Parts.{pool_in};
ghost use Rattle.c_arp.specs.Check.{told_checked};

use crate::parts::HbPool;
use targets::admit;
use targets::admit::ListError;

// The scope's number, 0 for a list that is not refused, and the record that is.
#[repr(C)]
#[derive(Clone, Copy)]
pub struct HbChecked {
    pub answer: u32,
    pub place: usize,
}

impl From<Result<(), ListError>> for HbChecked {
    ghost from_gives = { λ c h. h ≡ told_checked c };

    fn from(c: Result<(), ListError>) -> HbChecked {
        match c {
            Ok(()) => HbChecked {
                answer: 0,
                place: 0,
            },
            Err(e) => HbChecked {
                answer: e.number(),
                place: e.place(),
            },
        }
    }
}

// Whether a target list is refused where these addresses are occupied.
pub fn check_targets(occupied: HbPool, records: &[u8]) -> HbChecked
    ensures { result ≡ told_checked (checked_list (barred_pool (pool_in occupied)) records.now) }
{
    admit::check(records, occupied.into()).into()
}
