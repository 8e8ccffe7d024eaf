// May the symbol stand here: the first of the step's three functions.
ghost use Rattle.std.specs.Prelude.{◌≡◌};
ghost use Rattle.step.specs.Fits.{ack_at, way_fits, first_fits, command_fits, count_fits, fits_slot, fits};

use crate::state::{Decoder, Due, Slot};
use trace::shape::Shape;
use trace::valid::{address_fits, sender_fits};
use wire::address::{Address, WireByte};
use wire::symbol::{ACK, NACK, START, STOP, is_byte};

// The controller's ACK; its NACK comes after the last byte received.
fn ack_at(slot: Slot) -> u16
    ensures { result ≡ ack_at slot }
{
    match slot {
        Slot::Stop => NACK,
        _ => ACK,
    }
}

// A write where there is a write phase, else a read where there is a read phase, else either.
fn way_fits(sh: Shape, w: WireByte) -> bool
    ensures { result ≡ way_fits sh w.0 }
{
    if sh.has_write() {
        return !w.is_read();
    }
    !sh.has_read() || w.is_read()
}

// The first address byte.
fn first_fits(sh: Shape, x: u16) -> bool
    ensures { result ≡ first_fits sh x }
{
    let w = WireByte((x % 256) as u8);
    is_byte(x) && address_fits(sh, Address::from_wire(w)) && way_fits(sh, w)
}

fn command_fits(sh: Shape, x: u16) -> bool
    ensures { result ≡ command_fits sh x }
{
    is_byte(x) && sender_fits(sh, x)
}

// A count, where so many of the most that the shape allows are taken.
fn count_fits(sh: Shape, taken: u8, x: u16) -> bool
    ensures { result ≡ count_fits sh taken x }
{
    sh.least as u16 <= x && x <= sh.most.saturating_sub(taken) as u16
}

// The symbol may stand at the slot.
// Kept: an arm for each slot, so that the compiler goes from it straight to the slot's arm in `moved`. Arms with more slots than one cost two
// instructions a symbol more, and bench/codec.sh misses its bar.
fn fits_slot(sh: Shape, d: Decoder, x: u16) -> bool
    ensures { result ≡ fits_slot sh d.slot d x }
{
    match d.slot {
        Slot::Start => x == START,
        Slot::First => first_fits(sh, x),
        Slot::Command => command_fits(sh, x),
        Slot::Count => count_fits(sh, sh.received.least_of(sh.least), x),
        Slot::Data => is_byte(x),
        Slot::Pec => is_byte(x),
        Slot::Restart => x == START,
        Slot::Second => x == (d.first as u16 + 1) % 256,
        Slot::ReadCount => count_fits(sh, d.sentcount, x),
        Slot::ReadData => is_byte(x),
        Slot::ReadPec => is_byte(x),
        Slot::Stop => x == STOP,
        Slot::End => false,
    }
}

impl Decoder {
    // The symbol may stand next.
    pub fn may_stand(self, sh: Shape, x: u16) -> bool
        ensures { result ≡ fits sh self x }
    {
        match self.due {
            Due::Nobody => fits_slot(sh, self, x),
            Due::Target => matches!(x, ACK | NACK),
            Due::Controller => x == ack_at(self.slot),
            Due::Halted => x == STOP,
            Due::Cut => false,
        }
    }
}
