// The requests of a module at its own end of the bus: module, and m with what happens to it.
use crate::numbers::bytes;
use crate::shelf::Shelf;
use codec_answers::unclear::put_unclear;
use module::state::Module;
use module_answers::heard::put_heard;
use module_answers::line::{put_lost, put_made, put_start, put_state, put_stop, put_supplied};
use requests::expected::Expected;
use requests::request::{ModuleEvent, Record};
use wire::address::WireByte;
use writing::page::Page;

// A module in place of any other. There is one of whatever record a line asks for (module_answers, asked_is_ready).
pub(crate) fn resume(page: &mut Page, shelf: &mut Shelf, t: Record, fresh: u32) {
    match Module::of_record(t.udid, WireByte(t.byte), t.flag, fresh) {
        Ok(m) => {
            shelf.plugged = Some(m);
            put_made(page);
        }
        Err(_) => put_unclear(page, Expected::OddByte, 0),
    }
}

// The module receives the bytes that stand from a place on.
fn receive(page: &mut Page, m: Module, text: &[u8], from: usize) -> Module {
    let mut buffer = [0u8; 8192];
    put_heard(page, m, bytes(text, from, &mut buffer))
}

// The next byte of a read.
fn supply(page: &mut Page, m: Module) -> Module {
    let b = m.supply();
    put_supplied(page, b);
    b.after
}

// The module after what happens to it, which is answered.
fn happens(page: &mut Page, m: Module, e: ModuleEvent, text: &[u8]) -> Module {
    match e {
        ModuleEvent::Start => {
            put_start(page);
            m.start()
        }
        ModuleEvent::Bytes(from) => receive(page, m, text, from),
        ModuleEvent::Supply => supply(page, m),
        ModuleEvent::Lost => {
            put_lost(page);
            m.lost()
        }
        ModuleEvent::Stop => {
            put_stop(page);
            m.stop()
        }
        ModuleEvent::State => {
            put_state(page, m.own);
            m
        }
    }
}

// The same, where there is a module. The place is that of the verb.
pub(crate) fn event(page: &mut Page, shelf: &mut Shelf, e: ModuleEvent, place: usize, text: &[u8]) {
    match shelf.plugged {
        Some(m) => shelf.plugged = Some(happens(page, m, e, text)),
        None => put_unclear(page, Expected::Module, place),
    }
}
