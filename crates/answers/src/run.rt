// The answer of run: how the model run ended, the bound addresses with their targets, and the records as they are now.
ghost use Rattle.std.specs.Prelude.{◌≡◌, ◌+◌, ◌*◌, ◌≤◌, length};
ghost use Rattle.writing.specs.Pages.{with_text};
ghost use Rattle.answers.specs.Runs.{bound_text, address_text, bindings_text, record_text, records_text, ending_text, first_text, refusal_text, is_refusal, run_text};

use bindings::answer::ModelAnswer;
use pieces::piece::{hex_line, number_line, put_hex, put_number, put_udid, udid_line};
use pool::Pool;
use udid::Udid;
use wire::address::Address;
use writing::page::Page;

// A bound address and its target.
fn put_bound(page: &mut Page, a: u8, bindings: &[u8])
    ensures { page.new ≡ with_text page.old (bound_text bindings.now a) }
{
    let u = Udid::from_bytes(bindings, 16 * (a as usize));
    put_hex(page, b" 0x", a);
    udid_line(page, b" ", u);
}

// A line for an address, where it is bound.
fn put_address(page: &mut Page, bound: Pool, a: u8, bindings: &[u8])
    ensures { page.new ≡ with_text page.old (address_text bound bindings.now a) }
{
    if bound.has(Address(a)) {
        put_bound(page, a, bindings);
    }
}

// The bound addresses, in ascending order.
fn put_bindings(page: &mut Page, bound: Pool, bindings: &[u8])
    ensures { page.new ≡ with_text page.old (bindings_text bound bindings.now) }
{
    for a in 0..128 {
        put_address(page, bound, a, bindings);
    }
}

// A record as it is now: its index, the address byte and the flag.
fn put_record(page: &mut Page, records: &[u8], i: usize)
    requires { 18 * i + 18 ≤ length records.now }
    ensures { page.new ≡ with_text page.old (record_text records.now i) }
{
    let byte = records[18 * i + 16];
    let flag = records[18 * i + 17];
    put_number(page, b" target ", i as u64);
    put_hex(page, b" 0x", byte);
    number_line(page, b" ", u64::from(flag));
}

// Every whole record.
fn put_records(page: &mut Page, records: &[u8])
    ensures { page.new ≡ with_text page.old (records_text records.now) }
{
    for i in 0..records.len() / 18 {
        put_record(page, records, i);
    }
}

// How a run ended: with 13, the identifier that found no address.
fn put_ending(page: &mut Page, a: ModelAnswer)
    ensures { page.new ≡ with_text page.old (ending_text a) }
{
    let u = a.udid;
    page.put_decimal(u64::from(a.answer));
    if a.answer == 13 {
        put_udid(page, b" udid ", u);
    }
}

// The first line of a run that came to its end. The last pick stands at its end, also with 13.
fn put_first(page: &mut Page, a: ModelAnswer)
    ensures { page.new ≡ with_text page.old (first_text a) }
{
    put_ending(page, a);
    put_number(page, b" bound ", u64::from(a.count));
    put_number(page, b" get ", u64::from(a.gets));
    hex_line(page, b" last 0x", a.picked);
}

// A refusal; from 10 on it is of a record, and has the record's index.
fn put_refusal(page: &mut Page, a: ModelAnswer)
    ensures { page.new ≡ with_text page.old (refusal_text a) }
{
    page.put_decimal(u64::from(a.answer));
    if a.answer < 10 {
        page.put(b"\n");
    } else {
        number_line(page, b" record ", a.place as u64);
    }
}

// The numbers of refusals are 1 to 12.
// Kept: numbers here, and 13 and 10 above, for they are the scope's, and C gets what stands in ModelAnswer (hb_model).
fn is_refusal(n: u32) -> bool
    ensures { result ≡ is_refusal n }
{
    matches!(n, 1..=12)
}

// What a run answered, with the binding buffer and the records that it left.
#[tactic(auto, using(pieces::specs::PieceLaws::pieces), unfolding(crate::specs::Runs::run_text))]
pub fn put_run(page: &mut Page, a: ModelAnswer, bindings: &[u8], records: &[u8])
    ensures { page.new ≡ with_text page.old (run_text a bindings.now records.now) }
{
    if is_refusal(a.answer) {
        return put_refusal(page, a);
    }
    put_first(page, a);
    put_bindings(page, a.bound, bindings);
    put_records(page, records);
}
