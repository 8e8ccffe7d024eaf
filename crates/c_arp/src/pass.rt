// A pass of the ARP controller over a list. The controller's state does not cross to C: a pass starts anew and takes the entries of the list
// one after the other. An entry is a trace for a step or for its first half, an issue or a decline of the choice that waits, or a report
// that a module is gone; `entry` has how they stand in bytes.
// A report changes the state, and what was answered last stays.
// The list ends where no whole entry is left.
ghost use Rattle.std.specs.Prelude.{◌≡◌, ◌/◌, length, ltb};
ghost use Rattle.arp.specs.History.{Gone};
ghost use Rattle.lists.specs.Choice.{pick};
ghost use Rattle.pairs.specs.Pairs.{symbols_in};
ghost use Rattle.c_arp.specs.Parts.{pool_in};
ghost use Rattle.c_arp.specs.Pass.{event_of, after_event, pass_over, pass_command, told_found, pass_found};

use crate::entry::{Entry, next_entry};
use crate::kinds::{HbCommand, NOT_OUTSTANDING};
use crate::parts::{HbPool, HbUdid};
use arp::lookup::Found;
use arp::state::{Controller, Stepped};
use pairs::get_pairs;
use wire::address::Address;

// The symbols whose pairs these bytes are, as many as the buffer has room for.
fn symbols_of<'a>(buf: &'a mut [u16], bytes: &[u8]) -> &'a [u16]
    ensures { result.now ≡ symbols_in (pick (ltb (length bytes.now / 2) (length buf.old)) (length bytes.now / 2) (length buf.old)) bytes.now }
{
    let n = get_pairs(buf, bytes);
    &buf[..n]
}

// The report that the module at an address is gone. The pair can say more than 127: no target is bound there, and nothing changes.
fn report_on(st: Stepped, address: u16) -> Stepped
    ensures { result ≡ after_event st (Gone address) }
{
    if address > 127 {
        return st;
    }
    let reported = st.state.report_gone(Address(address as u8));
    Stepped {
        state: reported.state,
        ..st
    }
}

// What an entry leaves. No trace that fits has more than 525 symbols, so the first 526 of a trace decide.
fn take_entry(st: Stepped, entry: Entry) -> Stepped
    ensures { result ≡ after_event st (event_of entry.entry) }
{
    let mut buf = [0u16; 526];
    match entry {
        Entry::Step(trace) => st.state.step(symbols_of(&mut buf, trace)),
        Entry::Choose(trace) => st.state.choose(symbols_of(&mut buf, trace)),
        Entry::Gone(address) => report_on(st, address),
        Entry::Issue => st.state.issue(),
        Entry::Decline => st.state.decline(),
    }
}

// The whole pass; none where the last pick that is given is above 127.
fn run_pass(occupied: HbPool, last: u8, bytes: &[u8]) -> Option<Stepped>
    ensures { result ≡ pick (ltb 127 last) None (Some (pass_over (pool_in occupied) last bytes.now)) }
{
    if last > 127 {
        return None;
    }
    let mut st = Controller::new(occupied.into(), last).start();
    let mut rest = bytes;
    while let Some((entry, after)) = next_entry(rest) {
        st = take_entry(st, entry);
        rest = after;
    }
    Some(st)
}

// What was answered last, by the start or by an entry that is no report: with no such entry, Prepare To ARP. 1 where the last pick that
// is given is above 127.
pub fn pass_command(occupied: HbPool, last: u8, entries: &[u8]) -> HbCommand
    ensures { result ≡ pass_command (pool_in occupied) last entries.now }
{
    match run_pass(occupied, last, entries) {
        Some(st) => st.into(),
        None => HbCommand {
            answer: 1,
            ..NOT_OUTSTANDING
        },
    }
}

// The scope's number, and with 0 the identifier that is bound at the address.
#[repr(C)]
#[derive(Clone, Copy)]
pub struct HbFound {
    pub answer: u32,
    pub udid: HbUdid,
}

impl From<Found> for HbFound {
    ghost from_gives = { λ f h. h ≡ told_found f };

    fn from(f: Found) -> HbFound {
        let udid = HbUdid { high: 0, low: 0 };
        match f {
            Found::Bound(u) => HbFound {
                answer: 0,
                udid: u.into(),
            },
            Found::Nobody => HbFound { answer: 15, udid },
            Found::Two => HbFound { answer: 16, udid },
            Found::Left => HbFound { answer: 20, udid },
            Found::NoAddress => HbFound { answer: 1, udid },
        }
    }
}

// Who is bound at an address after such a pass. 1 where the last pick that is given is above 127, too.
pub fn pass_lookup(occupied: HbPool, last: u8, entries: &[u8], address: u8) -> HbFound
    ensures { result ≡ pass_found (pool_in occupied) last entries.now address }
{
    match run_pass(occupied, last, entries) {
        Some(st) => st.state.lookup(Address(address)).into(),
        None => Found::NoAddress.into(),
    }
}
