// The shape of a protocol: what a row of the scope's table says, as fields.
ghost use Rattle.std.specs.Prelude.{◌≡◌, ◌≤◌};
ghost use Rattle.trace.specs.Shapes.{some, is_counted, count_in, writes, reads, least_of};

// What a protocol sends or receives: nothing, so many bytes, or a count and as many bytes.
#[derive(Clone, Copy, PartialEq, Eq)]
pub enum Part {
    Nothing,
    Fixed(u8),
    Counted,
}

#[derive(Clone, Copy, PartialEq, Eq)]
pub struct Shape {
    // A command byte follows the first address byte.
    pub command: bool,
    pub sent: Part,
    pub received: Part,
    // A PEC may be used.
    pub checked: bool,
    // Goes to the host's address alone, with a sender's address byte, which is even, as its command.
    pub tohost: bool,
    // Each count is at least this, and all counts together are at most that.
    pub least: u8,
    pub most: u8,
}

impl Part {
    // The part is there at all.
    pub fn is_some(self) -> bool
        ensures { result ≡ some self }
    {
        !matches!(self, Part::Nothing)
    }

    pub fn is_counted(self) -> bool
        ensures { result ≡ is_counted self }
    {
        matches!(self, Part::Counted)
    }

    // What a part of n bytes adds to the sum of the counts.
    pub fn count_in(self, n: usize) -> usize
        ensures { (result ≡ count_in self n) × (result ≤ n) }
    {
        match self {
            Part::Counted => n,
            _ => 0,
        }
    }

    // What a part adds to it at the least.
    pub fn least_of(self, k: u8) -> u8
        ensures { result ≡ least_of self k }
    {
        match self {
            Part::Counted => k,
            _ => 0,
        }
    }
}

impl Shape {
    // There is a write phase: a command or data are sent.
    pub fn has_write(self) -> bool
        ensures { result ≡ writes self }
    {
        self.command || self.sent.is_some()
    }

    // There is a read phase.
    pub fn has_read(self) -> bool
        ensures { result ≡ reads self }
    {
        self.received.is_some()
    }
}
