// Which target's reply to Get UDID stands on the wire: of the unresolved ones that answer together, the one against which all others
// drop out. Rests on fields and arbitration; that its reply is what the wire shows bit by bit is in specs/WinnerLaws.
ghost use Rattle.std.specs.Prelude.{◌≡◌};
ghost use Rattle.targets.specs.Winner.{is_better, least_of, winner_of};
ghost use Rattle.targets.specs.Search.{place_of, Holds};

use super::fields;
use super::fields::Record;
use arbitration::win;
use udid::Udid;

// The best so far, with its identifier.
#[derive(Clone, Copy)]
struct Best {
    place: usize,
    udid: Udid,
}

// Record i answers, and beats the best so far. Mostly the high halves tell that it does not.
fn is_better(records: &[u8], i: usize, best: Option<Best>) -> bool
    requires { Holds records.now best }
    ensures { result ≡ is_better records.now i (place_of best) }
{
    let r = Record { records, i };
    if r.flag() == 1 {
        return false;
    }
    let Some(held) = best else { return true };
    r.high() <= held.udid.high && win::beats(r.udid(), held.udid)
}

// The best of the first n records.
fn least(records: &[u8], n: usize) -> Option<Best>
    ensures { place_of result ≡ least_of records.now n }
{
    let mut best = None;
    for i in 0..n {
        if is_better(records, i, best) {
            let udid = Record { records, i }.udid();
            best = Some(Best { place: i, udid });
        }
    }
    best
}

// The unresolved record with the least identifier; none where all are resolved, so that nobody answers.
pub fn find(records: &[u8]) -> Option<usize>
    ensures { result ≡ winner_of records.now }
{
    least(records, fields::count(records)).map(|b| b.place)
}
