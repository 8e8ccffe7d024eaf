// The count and the identifier of Assign Address: step 17.
ghost use Rattle.std.specs.Prelude.{◌≡◌};
ghost use Rattle.module.specs.Receive.{at_count, at_identifier};

use crate::byte::byte_of;
use crate::incoming::Incoming;
use crate::state::{Heard, Phase, take};

impl Incoming {
    // The count is 17.
    pub(crate) fn count(self) -> Heard
        ensures { result ≡ at_count self.own self.pec self.byte }
    {
        if self.byte == 17 {
            self.take(Phase::Identifier)
        } else {
            self.refuse()
        }
    }

    // A byte of the identifier is the one that the module has at that place.
    pub(crate) fn identifier(self, place: u8) -> Heard
        ensures { result ≡ at_identifier self.own place self.pec self.byte }
    {
        if self.byte != byte_of(self.own.udid, place) {
            self.refuse()
        } else if place < 15 {
            take(self.own, Phase::Identifier, place + 1, self.pec, 0)
        } else {
            self.take(Phase::Given)
        }
    }
}
