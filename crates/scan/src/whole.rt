// The fold of the step over a whole trace, and its answer.
ghost use Rattle.std.specs.Prelude.{◌≡◌, ◌%◌};
ghost use Rattle.pec.specs.Pec.{pec_step};
ghost use Rattle.step.specs.State.{fresh};
ghost use Rattle.scan.specs.Run.{run, decoded_by};

use crate::answer::{Decoded, Refused};
use crate::ending::finished;
use crate::refusal::why_not;
use pec::table::Table;
use step::next::Rules;
use step::state::{Decoder, start};

// The PEC with a symbol's low byte, by the table that is lent.
fn pec_after(t: &Table, c: u8, x: u16) -> u8
    ensures { result ≡ pec_step c (x % 256) }
{
    t.add_byte(c, (x % 256) as u8)
}

// The state at the trace's end, or the refusal at the first symbol that may not stand where it does. The table is lent for the whole trace.
fn read_by(t: &Table, rules: Rules, tr: &[u16]) -> Result<Decoder, Refused>
    ensures { result ≡ run rules.shape rules.pec fresh 0 tr.now }
{
    let mut d = start();
    for (place, &x) in tr.iter().enumerate() {
        if !d.may_stand(rules.shape, x) {
            return Err(why_not(rules.shape, d, place, x));
        }
        d = d.moved(rules, x, pec_after(t, d.pec, x));
    }
    Ok(d)
}

// The answer for a trace of a shape, which is that of the protocol.
pub fn decode_by(protocol: u8, rules: Rules, tr: &[u16]) -> Decoded
    ensures { result ≡ decoded_by protocol rules.shape rules.pec tr.now }
{
    let d = read_by(&Table::new(), rules, tr)?;
    finished(protocol, rules.shape, d, tr)
}
