// The decoder's answer as a struct of numbers.
ghost use Rattle.std.specs.Prelude.{◌≡◌};
ghost use Rattle.c_codec.specs.Codec.{told_decoded};

use scan::answer::{Decoded, refusal_number};

// The scope's number; the place, length or byte that comes with a refusal; and the transaction with 0. Whatever an answer lacks is 0.
#[repr(C)]
#[derive(Clone, Copy)]
pub struct HbDecoded {
    pub answer: u32,
    pub address: u32,
    pub direction: u32,
    pub command: u32,
    pub value: usize,
    pub sent: usize,
    pub received: usize,
}

// An answer that lacks everything.
const NOTHING: HbDecoded = HbDecoded {
    answer: 0,
    address: 0,
    direction: 0,
    command: 0,
    value: 0,
    sent: 0,
    received: 0,
};

// The decoder's answer in these numbers.
impl From<Decoded> for HbDecoded {
    ghost from_gives = { λ a h. h ≡ told_decoded a };

    fn from(a: Decoded) -> HbDecoded {
        match a {
            Ok(t) => HbDecoded {
                address: u32::from(t.address.0),
                direction: u32::from(t.direction),
                command: u32::from(t.command),
                sent: t.sent,
                received: t.received,
                ..NOTHING
            },
            Err(e) => HbDecoded {
                answer: u32::from(refusal_number(e.why)),
                value: e.place,
                ..NOTHING
            },
        }
    }
}
