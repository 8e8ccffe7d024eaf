// Refusal 10: a record whose byte 16 is even or whose byte 17 is above 1. Rests on fields.
ghost use Rattle.std.specs.Prelude.{◌≡◌};
ghost use Rattle.targets.specs.First.{first};
ghost use Rattle.targets.specs.Refusals.{is_malformed};

use super::fields::Record;

fn is_malformed(r: Record<'_>) -> bool
    ensures { result ≡ is_malformed r.entry.records.now r.entry.i }
{
    r.address_byte() % 2 == 0 || r.flag() > 1
}

// The first such record below n.
pub(crate) fn first_malformed(records: &[u8], n: usize) -> Option<usize>
    ensures { result ≡ first (is_malformed records.now) n }
{
    (0..n).find(|&i| is_malformed(Record { records, i }))
}
