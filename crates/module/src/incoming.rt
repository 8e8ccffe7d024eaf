// A byte received within a packet, and whether it fits what is due.
ghost use Rattle.std.specs.Prelude.{◌≡◌};
ghost use Rattle.module.specs.State.{taken, refused};

use crate::state::{Heard, Lasting, Phase, refuse, take};

// Whose packet it is, the PEC of the packet with that byte, and the byte.
#[derive(Clone, Copy)]
pub(crate) struct Incoming {
    pub(crate) own: Lasting,
    pub(crate) pec: u8,
    pub(crate) byte: u8,
}

impl Incoming {
    // It fits: ACK, and this is due next.
    pub(crate) fn take(self, due: Phase) -> Heard
        ensures { result ≡ taken self.own due 0 self.pec 0 }
    {
        take(self.own, due, 0, self.pec, 0)
    }

    // It does not.
    pub(crate) fn refuse(self) -> Heard
        ensures { result ≡ refused self.own }
    {
        refuse(self.own)
    }
}
