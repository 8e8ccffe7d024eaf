// Refusal 12: a fixed target whose address is barred or is that of an earlier fixed one. Rests on fields and pool.
ghost use Rattle.std.specs.Prelude.{◌≡◌};
ghost use Rattle.targets.specs.First.{first, some};
ghost use Rattle.targets.specs.Refusals.{is_fixed_as, is_taken};

use super::fields::Record;
use pool::Pool;

// Record j is fixed, at the address of record i.
fn is_fixed_as(records: &[u8], i: usize, j: usize) -> bool
    ensures { result ≡ is_fixed_as records.now i j }
{
    let earlier = Record { records, i: j };
    earlier.address().0 == Record { records, i }.address().0 && earlier.udid().is_fixed()
}

// An earlier record is.
fn is_earlier_fixed(records: &[u8], i: usize) -> bool
    ensures { result ≡ some (is_fixed_as records.now i) i }
{
    (0..i).any(|j| is_fixed_as(records, i, j))
}

fn is_taken(records: &[u8], i: usize, barred: Pool) -> bool
    ensures { result ≡ is_taken barred records.now i }
{
    let r = Record { records, i };
    r.udid().is_fixed() && (barred.has(r.address()) || is_earlier_fixed(records, i))
}

// The first such record below n.
pub(crate) fn first_taken(records: &[u8], n: usize, barred: Pool) -> Option<usize>
    ensures { result ≡ first (is_taken barred records.now) n }
{
    (0..n).find(|&i| is_taken(records, i, barred))
}
