// A word of 16 bits and its two bytes: the low byte goes first.
ghost use Rattle.std.specs.Prelude.{◌≡◌};
ghost use Rattle.wire.specs.Words.{low_byte, high_byte, word_of};

#[derive(Clone, Copy, PartialEq, Eq)]
pub struct Word(pub u16);

impl Word {
    // The byte that goes first.
    pub fn low(self) -> u8
        ensures { result ≡ low_byte self.0 }
    {
        self.0.to_le_bytes()[0]
    }

    // The byte that goes second.
    pub fn high(self) -> u8
        ensures { result ≡ high_byte self.0 }
    {
        self.0.to_le_bytes()[1]
    }

    // The word of two bytes in the order in which they came.
    pub fn from_bytes(first: u8, second: u8) -> Word
        ensures { result.0 ≡ word_of first second }
    {
        Word(u16::from_le_bytes([first, second]))
    }
}
