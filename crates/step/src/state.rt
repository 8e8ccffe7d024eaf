// The decoder between two symbols: a small state by value, no arrays in it.
ghost use Rattle.std.specs.Prelude.{◌≡◌};
ghost use Rattle.step.specs.State.{fresh};

// What stands at the next place that is no ACK. Second is the address byte of the read phase.
#[derive(Clone, Copy, PartialEq, Eq)]
pub enum Slot {
    Start,
    First,
    Command,
    Count,
    Data,
    Pec,
    Restart,
    Second,
    ReadCount,
    ReadData,
    ReadPec,
    Stop,
    End,
}

// What is due before it: nobody's ACK, the target's ACK, the controller's ACK or NACK.
// Halted: the target gave NACK, so STOP is due. Cut: that STOP has come.
#[derive(Clone, Copy, PartialEq, Eq)]
pub enum Due {
    Nobody,
    Target,
    Controller,
    Halted,
    Cut,
}

#[derive(Clone, Copy)]
pub struct Decoder {
    pub slot: Slot,
    pub due: Due,
    // The data bytes after the next one.
    pub left: u8,
    // PEC of the bytes so far.
    pub pec: u8,
    // The first address byte, the command and the two counts, once they have come.
    pub first: u8,
    pub command: u8,
    pub sentcount: u8,
    pub readcount: u8,
    // No PEC has come that differs.
    pub good: bool,
}

// Before the first symbol.
pub fn start() -> Decoder
    ensures { result ≡ fresh }
{
    Decoder {
        slot: Slot::Start,
        due: Due::Nobody,
        left: 0,
        pec: 0,
        first: 0,
        command: 0,
        sentcount: 0,
        readcount: 0,
        good: true,
    }
}
