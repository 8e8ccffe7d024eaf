// Which kind of wrong symbol it is. It is asked for a symbol that may not stand next, in a trace that is not over.
ghost use Rattle.std.specs.Prelude.{◌≡◌, false};
ghost use Rattle.misfit.specs.Kinds as Kinds;

use step::state::{Decoder, Due, Slot};
use trace::shape::Shape;
use wire::symbol::{ACK, NACK, is_byte};

#[derive(Clone, Copy)]
pub enum Kind {
    // The controller's ACK where its NACK is due, or its NACK where its ACK is.
    Swapped,
    // An address byte with another address, or for the other direction.
    Misaddressed,
    // A count that is not allowed.
    Miscounted,
    // None of these.
    Other,
}

// A byte in this slot. An address byte follows a START.
fn kind_of_byte(slot: Slot) -> Kind
    ensures { result ≡ Kinds.kind_of_byte false slot }
{
    match slot {
        Slot::First | Slot::Second => Kind::Misaddressed,
        Slot::Count | Slot::ReadCount => Kind::Miscounted,
        _ => Kind::Other,
    }
}

// The kind of the symbol, which may not stand next. Where the protocol goes to the host alone, no wrong byte is told from another.
pub fn kind_of(sh: Shape, d: Decoder, x: u16) -> Kind
    ensures { result ≡ Kinds.kind_of sh d x }
{
    match d.due {
        Due::Nobody if is_byte(x) && !sh.tohost => kind_of_byte(d.slot),
        Due::Controller if matches!(x, ACK | NACK) => Kind::Swapped,
        _ => Kind::Other,
    }
}
