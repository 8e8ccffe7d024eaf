// The line of a step, with what its trace was taken for.
ghost use Rattle.std.specs.Prelude.{◌≡◌};
ghost use Rattle.writing.specs.Pages.{with_text};
ghost use Rattle.hearing.specs.Heard.{answer};
ghost use Rattle.hearing.specs.Told.{tells};
ghost use Rattle.step_words.specs.Taken.{taken_for};
ghost use Rattle.step_words.specs.Stepped.{mark_text, added_text, stepped_text};

use crate::taken::{put_assign, put_get, put_prepare};
use commands::command::{Command, Handed};
use hearing::told::tell;
use meanings::worded::{number_of, put_headed, put_rest};
use scan::answer::Decoded;
use scan::whole::decode_by;
use step::next::Rules;
use trace::protocol::{BLOCK_READ, BLOCK_WRITE, SEND_BYTE, shape_of};
use writing::page::Page;

// What a trace decodes to as a protocol, with PEC.
fn decoded_as(protocol: u8, tr: &[u16]) -> Decoded
    ensures { result ≡ answer protocol tr.now }
{
    let shape = shape_of(protocol);
    decode_by(protocol, Rules { shape, pec: true }, tr)
}

// What the trace was taken for, by the command that was outstanding and the number of the step's answer.
#[tactic(auto, using(pieces::specs::PieceLaws::pieces), unfolding(crate::specs::Taken::taken_for))]
fn put_taken(page: &mut Page, n: u64, k: Command, tr: &[u16])
    ensures { page.new ≡ with_text page.old (taken_for n k tr.now) }
{
    let told = tell(Handed::Send(k), tr);
    match k {
        Command::Prepare => put_prepare(page, told, decoded_as(SEND_BYTE, tr)),
        Command::GetUdid => put_get(page, n, told, decoded_as(BLOCK_READ, tr)),
        Command::Assign(_, _) => put_assign(page, n, told, decoded_as(BLOCK_WRITE, tr)),
    }
}

// What stands before it: a colon where the line has no words yet, which is at 0, and a semicolon where it has.
fn put_mark(page: &mut Page, n: u64)
    ensures { page.new ≡ with_text page.old (mark_text n) }
{
    if n == 0 {
        page.put(b": ");
    } else {
        page.put(b"; ");
    }
}

// What is added to the line: nothing where no command was outstanding.
fn put_added(page: &mut Page, n: u64, last: Handed, tr: &[u16])
    ensures { page.new ≡ with_text page.old (added_text n last tr.now) }
{
    match last {
        Handed::Send(k) => {
            put_mark(page, n);
            put_taken(page, n, k, tr);
        }
        Handed::Wait(_) => {}
    }
}

// The answer of a step in words: what was outstanding before it, and its trace.
#[tactic(auto, using(pieces::specs::PieceLaws::pieces), unfolding(crate::specs::Stepped::stepped_text))]
pub fn put_stepped(page: &mut Page, answer: &[u8], last: Handed, tr: &[u16])
    ensures { page.new ≡ with_text page.old (stepped_text answer.now last tr.now) }
{
    put_headed(page, answer);
    put_added(page, number_of(answer), last, tr);
    put_rest(page, answer);
}
