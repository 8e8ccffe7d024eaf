// What was expected where a line is no request, and the place of the word that stands there instead.
ghost use Rattle.std.specs.Prelude.{◌≡◌};
ghost use Rattle.requests.specs.Clear.{due};

#[derive(Clone, Copy, PartialEq, Eq)]
pub enum Expected {
    // One of the verbs.
    Verb,
    // A number of 0 to 255.
    Byte,
    // A number of 0 to 65,535.
    Symbol,
    // A protocol, by number or name.
    Protocol,
    // p, with PEC, or -, without.
    Pec,
    // w, the mark of the bytes that are sent.
    Sent,
    // A byte that is sent, or r, the mark of the bytes that are received.
    Received,
    // 32 hexadecimal digits.
    Udid,
    // No word any more.
    End,
    // Room for a target record.
    Targets,
    // An odd byte; where the module is fixed, not 255.
    OddByte,
    // 0 or 1.
    Flag,
    // 8 hexadecimal digits.
    Fresh,
    // start, byte, supply, lost, stop or state.
    Event,
    // A module, which the verb module makes.
    Module,
    // A line that is no longer than a line may be.
    Line,
}

// A line that is no request: what was expected, and where.
#[derive(Clone, Copy, PartialEq, Eq)]
pub struct Unclear {
    pub expected: Expected,
    pub place: usize,
}

// What a word says, or that something was expected in its place.
pub(crate) fn due<T: Copy>(expected: Expected, word: Result<T, usize>) -> Result<T, Unclear>
    ensures { result ≡ due expected word }
{
    match word {
        Ok(said) => Ok(said),
        Err(place) => Err(Unclear { expected, place }),
    }
}
