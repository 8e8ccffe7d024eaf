// The answers of module, and of m save for bytes.
ghost use Rattle.std.specs.Prelude.{◌≡◌};
ghost use Rattle.writing.specs.Pages.{with_text};
ghost use Rattle.module_answers.specs.ModuleLines.{made_text, start_text, lost_text, stop_text, supplied_text, state_text};

use module::state::{Lasting, Supplied};
use module::supply::address_byte;
use pieces::piece::{hex_line, number_line, put_hex, put_line, put_udid};
use writing::page::Page;

// There is a module.
pub fn put_made(page: &mut Page)
    ensures { page.new ≡ with_text page.old made_text }
{
    put_line(page, b"0 module");
}

// A START, or a repeated one.
pub fn put_start(page: &mut Page)
    ensures { page.new ≡ with_text page.old start_text }
{
    put_line(page, b"0 start");
}

// It has lost arbitration.
pub fn put_lost(page: &mut Page)
    ensures { page.new ≡ with_text page.old lost_text }
{
    put_line(page, b"0 lost");
}

// A STOP.
pub fn put_stop(page: &mut Page)
    ensures { page.new ≡ with_text page.old stop_text }
{
    put_line(page, b"0 stop");
}

// The next byte of the read, or that it has none to send.
pub fn put_supplied(page: &mut Page, s: Supplied)
    ensures { page.new ≡ with_text page.old (supplied_text s) }
{
    match s.byte {
        Some(byte) => hex_line(page, b"0 byte 0x", byte),
        None => put_line(page, b"0 released"),
    }
}

// The module as it is now: its identifier, its address byte and the flag Address Resolved.
pub fn put_state(page: &mut Page, own: Lasting)
    ensures { page.new ≡ with_text page.old (state_text own) }
{
    let u = own.udid;
    let byte = address_byte(own);
    put_udid(page, b"0 module ", u);
    put_hex(page, b" 0x", byte);
    number_line(page, b" ", u64::from(own.resolved));
}
