// Where a byte leads: the slot after it, by the rules of the trace and by what is left.
ghost use Rattle.std.specs.Prelude.{◌≡◌};
ghost use Rattle.step.specs.State.{to};
ghost use Rattle.step.specs.Next.{after_read, to_read_data, to_read, after_write, to_data, to_sent, after_first};

use crate::state::Slot;
use trace::shape::{Part, Shape};

// What a trace is read by: its shape, and whether a PEC ends it.
#[derive(Clone, Copy)]
pub struct Rules {
    pub shape: Shape,
    pub pec: bool,
}

// The slot, and the data bytes that follow the next one there.
#[derive(Clone, Copy)]
pub struct Aim {
    pub slot: Slot,
    pub left: u8,
}

// To a slot with no data bytes to count.
fn aim_at(slot: Slot) -> Aim
    ensures { result ≡ to slot 0 }
{
    Aim { slot, left: 0 }
}

impl Rules {
    // Behind the last data byte received.
    fn after_read(self) -> Aim
        ensures { result ≡ after_read self.pec }
    {
        if self.pec {
            aim_at(Slot::ReadPec)
        } else {
            aim_at(Slot::Stop)
        }
    }

    // To k bytes of data received.
    pub(crate) fn to_read_data(self, k: u8) -> Aim
        ensures { result ≡ to_read_data self.pec k }
    {
        if k == 0 {
            return self.after_read();
        }
        Aim {
            slot: Slot::ReadData,
            left: k - 1,
        }
    }

    // To the part received.
    pub(crate) fn to_read(self) -> Aim
        ensures { result ≡ to_read self.shape.received self.pec }
    {
        match self.shape.received {
            Part::Nothing => self.after_read(),
            Part::Fixed(k) => self.to_read_data(k),
            Part::Counted => aim_at(Slot::ReadCount),
        }
    }

    // Behind the last data byte sent.
    fn after_write(self) -> Aim
        ensures { result ≡ after_write self.shape self.pec }
    {
        if self.shape.has_read() {
            if self.shape.has_write() {
                return aim_at(Slot::Restart);
            }
            return self.to_read();
        }
        if self.pec {
            aim_at(Slot::Pec)
        } else {
            aim_at(Slot::Stop)
        }
    }

    // To k bytes of data sent.
    pub(crate) fn to_data(self, k: u8) -> Aim
        ensures { result ≡ to_data self.shape self.pec k }
    {
        if k == 0 {
            return self.after_write();
        }
        Aim {
            slot: Slot::Data,
            left: k - 1,
        }
    }

    // To the part sent.
    pub(crate) fn to_sent(self) -> Aim
        ensures { result ≡ to_sent self.shape self.pec self.shape.sent }
    {
        match self.shape.sent {
            Part::Nothing => self.after_write(),
            Part::Fixed(k) => self.to_data(k),
            Part::Counted => aim_at(Slot::Count),
        }
    }

    // Behind the first address byte.
    pub(crate) fn after_first(self) -> Aim
        ensures { result ≡ after_first self.shape self.pec }
    {
        if self.shape.command {
            return aim_at(Slot::Command);
        }
        self.to_sent()
    }
}
