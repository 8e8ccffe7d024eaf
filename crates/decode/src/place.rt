// Where in a trace the data begin that are handed over.
ghost use Rattle.std.specs.Prelude.{◌≡◌};
ghost use Rattle.scan.specs.Handed.{sent_place, received_place};

use trace::shape::Shape;

// The data sent: behind the first address byte, the command and the count.
pub(crate) fn sent_place(sh: Shape) -> usize
    ensures { result ≡ sent_place sh }
{
    let command = if sh.command { 2 } else { 0 };
    let count = if sh.sent.is_counted() { 2 } else { 0 };
    3 + command + count
}

// The n bytes of data received, in a trace of so many symbols: two places a byte before STOP, and before a PEC received with its NACK.
// They are taken off one after the other, so that no sum can be too large.
pub(crate) fn received_place(pec: bool, n: usize, len: usize) -> usize
    ensures { result ≡ received_place pec n len }
{
    let end = if pec { 3 } else { 1 };
    len.saturating_sub(end).saturating_sub(n).saturating_sub(n)
}
