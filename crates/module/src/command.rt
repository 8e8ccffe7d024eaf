// The first byte of a packet, the command, and the read address after Get UDID: steps 8, 12 to 20, 26 to 29.
ghost use Rattle.std.specs.Prelude.{◌≡◌};
ghost use Rattle.module.specs.Receive.{at_first, is_own, at_directed, at_command, at_again};

use crate::incoming::Incoming;
use crate::state::{Heard, Lasting, Phase, refuse, take};
use pec::add_byte;
use wire::address::Address;

// The default address, for writing and for reading.
const FOR_WRITE: u8 = 2 * Address::DEFAULT.0;

const FOR_READ: u8 = FOR_WRITE + 1;

// The first byte of a packet: the default address for writing, and no other.
pub(crate) fn first(own: Lasting, b: u8) -> Heard
    ensures { result ≡ at_first own b }
{
    if b == FOR_WRITE {
        take(own, Phase::Command, 0, add_byte(0, FOR_WRITE), 0)
    } else {
        refuse(own)
    }
}

// The command is directed to this module: it has an address, which is the command's. No directed command reaches 00h to 0Fh and 7Fh.
#[tactic(auto, unfolding(crate::specs::Receive::is_own))]
fn is_own(own: Lasting, b: u8) -> bool
    ensures { result ≡ is_own own b }
{
    own.valid && 0x20 <= b && b <= 0xFD && b / 2 == own.address
}

impl Incoming {
    // Get UDID where the command is odd, Reset Device where it is even.
    fn directed(self) -> Heard
        ensures { result ≡ at_directed self.own self.pec self.byte }
    {
        if !is_own(self.own, self.byte) {
            self.refuse()
        } else if self.byte % 2 == 1 {
            self.take(Phase::Called)
        } else {
            self.take(Phase::ResetPec)
        }
    }

    // The command byte: one of the four general commands, or a directed one.
    pub(crate) fn command(self) -> Heard
        ensures { result ≡ at_command self.own self.pec self.byte }
    {
        match self.byte {
            0x01 => self.take(Phase::PreparePec),
            0x02 => self.take(Phase::ResetPec),
            0x03 => self.take(Phase::Asked),
            0x04 => self.take(Phase::Count),
            _ => self.directed(),
        }
    }

    // A quiet module refuses the read address.
    pub(crate) fn again(self, quiet: bool) -> Heard
        ensures { result ≡ at_again quiet self.own self.pec self.byte }
    {
        if self.byte != FOR_READ {
            first(self.own, self.byte)
        } else if quiet {
            self.refuse()
        } else {
            self.take(Phase::Reply)
        }
    }
}
