// A request is answered: by the libraries, and in the words of codec_answers, answers, lookups and module_answers.
use crate::codec::{decode, encode, pec};
use crate::pass::{choose, decline, gone, issue, lookup, start, step, table};
use crate::plugged::{event, resume};
use crate::run::run;
use crate::setup::{clear, occupied, target};
use crate::shelf::Shelf;
use codec_answers::unclear::put_unclear;
use requests::request::{Request, read_request};
use writing::page::Page;

// Answers a line, which has no comment any more. A line of no word gets no answer.
pub(crate) fn answer(page: &mut Page, shelf: &mut Shelf, text: &[u8], records: &mut [u8]) {
    let asked = match read_request(text) {
        Ok(asked) => asked,
        Err(u) => return put_unclear(page, u.expected, u.place),
    };
    match asked {
        Request::Nothing => {}
        Request::Pec(from) => pec(page, text, from),
        Request::Encode(h, f, sent, received) => encode(page, h, f, text, sent, received),
        Request::Decode(h, from) => decode(page, h, text, from),
        Request::Occupied(from) => occupied(page, shelf, text, from),
        Request::Target(t, place) => target(page, shelf, t, place, records),
        Request::Clear => clear(page, shelf),
        Request::Run(last) => run(page, shelf, last, records),
        Request::Start => start(page, shelf),
        Request::Step(from) => step(page, shelf, text, from),
        Request::Lookup(a) => lookup(page, shelf, a),
        Request::Gone(a) => gone(page, shelf, a),
        Request::Grid => table(page, shelf),
        Request::Module(t, fresh) => resume(page, shelf, t, fresh),
        Request::Event(e, place) => event(page, shelf, e, place, text),
        Request::Choose(from) => choose(page, shelf, text, from),
        Request::Issue => issue(page, shelf),
        Request::Decline => decline(page, shelf),
    }
}
