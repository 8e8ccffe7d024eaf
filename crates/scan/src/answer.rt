// What the decoder answers. decode_number in specs/Numbers.antt gives the scope's number of each case, and what comes with it.
ghost use Rattle.std.specs.Prelude.{◌≡◌};
ghost use Rattle.scan.specs.Numbers.{refusal_number, is_nack};

use trace::transaction::Transaction;

// Why a trace, or a call, is refused.
#[derive(Clone, Copy, PartialEq, Eq)]
pub enum Refusal {
    // No such protocol, or a PEC where none may be used.
    Forbidden,
    // A buffer of under 255 bytes.
    BufferTooShort,
    // A number above 259.
    NoSymbol,
    // The trace fits, and is not whole.
    EndsEarly,
    // A symbol that can't stand there, and is none of the three kinds below.
    Unexpected,
    // The target did not acknowledge a byte.
    NotAcknowledged,
    // The PEC differs, in a trace that is whole otherwise.
    PecDiffers,
    // A symbol after the last STOP.
    AfterStop,
    // The controller's ACK where its NACK is due, or its NACK where its ACK is.
    WrongAck,
    // An address byte with another address, or for the other direction.
    WrongAddress,
    // A count that is not allowed.
    WrongCount,
}

// Why, and where: the symbol's place; the trace's length where it ends early; which byte was not acknowledged, from 0, only bytes
// counted; 0 where the trace was not read.
#[derive(Clone, Copy, PartialEq, Eq)]
pub struct Refused {
    pub why: Refusal,
    pub place: usize,
}

// The transaction whose trace by the encoder it is, or the refusal.
pub type Decoded = Result<Transaction, Refused>;

// The scope's number of a refusal.
// Kept: no `From<Refusal> for u8`, as C and the console would then read `u32::from(u8::from(w))`; the documents name this function.
pub fn refusal_number(w: Refusal) -> u8
    ensures { result ≡ refusal_number w }
{
    match w {
        Refusal::Forbidden => 1,
        Refusal::BufferTooShort => 2,
        Refusal::NoSymbol => 3,
        Refusal::EndsEarly => 4,
        Refusal::Unexpected => 5,
        Refusal::NotAcknowledged => 6,
        Refusal::PecDiffers => 7,
        Refusal::AfterStop => 8,
        Refusal::WrongAck => 17,
        Refusal::WrongAddress => 18,
        Refusal::WrongCount => 19,
    }
}

// A byte that the target did not acknowledge.
pub fn is_nack(w: Refusal) -> bool
    ensures { result ≡ is_nack w }
{
    w == Refusal::NotAcknowledged
}
