// Which answer a symbol gets that may not stand where it does.
ghost use Rattle.std.specs.Prelude.{◌≡◌};
ghost use Rattle.scan.specs.Refusal.{over, refusal_of, why};

use crate::answer::{Refusal, Refused};
use misfit::kind::{Kind, kind_of};
use step::state::{Decoder, Due, Slot};
use trace::shape::Shape;
use wire::symbol::is_symbol;

// The last STOP has come, after the whole trace or after a target's NACK: nothing can follow.
pub(crate) fn is_over(d: Decoder) -> bool
    ensures { result ≡ over d.due d.slot }
{
    matches!((d.due, d.slot), (Due::Nobody, Slot::End) | (Due::Cut, _))
}

// The refusal of a wrong symbol, by its kind.
impl From<Kind> for Refusal {
    ghost from_gives = { λ k w. w ≡ refusal_of k };

    fn from(k: Kind) -> Refusal {
        match k {
            Kind::Swapped => Refusal::WrongAck,
            Kind::Misaddressed => Refusal::WrongAddress,
            Kind::Miscounted => Refusal::WrongCount,
            Kind::Other => Refusal::Unexpected,
        }
    }
}

pub(crate) fn why_not(sh: Shape, d: Decoder, place: usize, x: u16) -> Refused
    ensures { result ≡ why sh d place x }
{
    let why = if !is_symbol(x) {
        Refusal::NoSymbol
    } else if is_over(d) {
        Refusal::AfterStop
    } else {
        Refusal::from(kind_of(sh, d, x))
    };
    Refused { why, place }
}
