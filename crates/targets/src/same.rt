// Refusal 11: two records with equal identifiers. Rests on fields.
ghost use Rattle.std.specs.Prelude.{◌≡◌};
ghost use Rattle.targets.specs.First.{first};
ghost use Rattle.targets.specs.Refusals.{is_repeated};

use super::fields::Record;

// Record i has the identifier of an earlier one.
fn is_repeated(records: &[u8], i: usize) -> bool
    ensures { result ≡ is_repeated records.now i }
{
    let u = Record { records, i }.udid();
    (0..i).any(|j| Record { records, i: j }.is_of(u))
}

// The first such record below n.
pub(crate) fn first_repeated(records: &[u8], n: usize) -> Option<usize>
    ensures { result ≡ first (is_repeated records.now) n }
{
    (0..n).find(|&i| is_repeated(records, i))
}
