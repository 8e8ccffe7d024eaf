// The words that the requests encode and decode begin with, and those that stand before encode's lists.
ghost use Rattle.std.specs.Prelude.{◌≡◌};
ghost use Rattle.requests.specs.Requests.{head_at, fields_at};

use crate::expected::{Expected, Unclear, due};
use crate::request::{Fields, Head};
use words::word::{Word, byte_word, pec_word, protocol_word};

// P p|-
#[tactic(auto, unfolding(crate::specs::Requests::head_at))]
pub(crate) fn head(line: &[u8], from: usize) -> Result<Word<Head>, Unclear>
    ensures { result ≡ head_at line.now from }
{
    let p = due(Expected::Protocol, protocol_word(line, from))?;
    let c = due(Expected::Pec, pec_word(line, p.to))?;
    Ok(Word {
        value: Head {
            protocol: p.value,
            pec: c.value,
        },
        from: p.from,
        to: c.to,
    })
}

// ADDRESS DIRECTION COMMAND
#[tactic(auto, unfolding(crate::specs::Requests::fields_at))]
pub(crate) fn fields(line: &[u8], from: usize) -> Result<Word<Fields>, Unclear>
    ensures { result ≡ fields_at line.now from }
{
    let a = due(Expected::Byte, byte_word(line, from))?;
    let d = due(Expected::Byte, byte_word(line, a.to))?;
    let c = due(Expected::Byte, byte_word(line, d.to))?;
    Ok(Word {
        value: Fields {
            address: a.value,
            direction: d.value,
            command: c.value,
        },
        from: a.from,
        to: c.to,
    })
}
