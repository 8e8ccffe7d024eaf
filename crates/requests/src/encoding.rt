// The requests of the codec: pec, encode and decode.
ghost use Rattle.std.specs.Prelude.{◌≡◌};
ghost use Rattle.requests.specs.Requests.{pec_request, encode_request, sent_at, received_at, decode_request};

use crate::expected::{Expected, Unclear};
use crate::head::{fields, head};
use crate::list::{bytes_end, symbols_end, to_end};
use crate::request::Request;
use words::word::{MarkWord, mark_word};

// pec B...
#[tactic(auto, unfolding(crate::specs::Requests::pec_request))]
pub(crate) fn pec(line: &[u8], from: usize) -> Result<Request, Unclear>
    ensures { result ≡ pec_request line.now from }
{
    to_end(
        Request::Pec(from),
        line,
        Expected::Byte,
        bytes_end(line, from),
    )
}

// w B..., as far as they go: where they begin, and the place after them. At the end of the line the list is empty; any other word than w
// is refused.
#[tactic(auto, unfolding(crate::specs::Requests::sent_at))]
fn sent(line: &[u8], at: usize) -> Result<(usize, usize), Unclear>
    ensures { result ≡ sent_at line.now at }
{
    match mark_word(line, at, b"w") {
        MarkWord::Mark(next) => Ok((next, bytes_end(line, next))),
        MarkWord::Over(place) => Ok((place, place)),
        MarkWord::Another(place) => Err(Unclear {
            expected: Expected::Sent,
            place,
        }),
    }
}

// r B..., to the end of the line, which may also come at once: where they begin. Any other word than r is no byte of the list before it.
#[tactic(auto, unfolding(crate::specs::Requests::received_at))]
fn received(line: &[u8], at: usize) -> Result<usize, Unclear>
    ensures { result ≡ received_at line.now at }
{
    match mark_word(line, at, b"r") {
        MarkWord::Mark(next) => to_end(next, line, Expected::Byte, bytes_end(line, next)),
        MarkWord::Over(place) => Ok(place),
        MarkWord::Another(place) => Err(Unclear {
            expected: Expected::Received,
            place,
        }),
    }
}

// encode P p|- ADDRESS DIRECTION COMMAND w B... r B...
#[tactic(auto, unfolding(crate::specs::Requests::encode_request))]
pub(crate) fn encode(line: &[u8], from: usize) -> Result<Request, Unclear>
    ensures { result ≡ encode_request line.now from }
{
    let h = head(line, from)?;
    let f = fields(line, h.to)?;
    let s = sent(line, f.to)?;
    let r = received(line, s.1)?;
    Ok(Request::Encode(h.value, f.value, s.0, r))
}

// decode P p|- SYMBOL...
#[tactic(auto, unfolding(crate::specs::Requests::decode_request))]
pub(crate) fn decode(line: &[u8], from: usize) -> Result<Request, Unclear>
    ensures { result ≡ decode_request line.now from }
{
    let h = head(line, from)?;
    to_end(
        Request::Decode(h.value, h.to),
        line,
        Expected::Symbol,
        symbols_end(line, h.to),
    )
}
