// The answers of start, step, choose, issue and decline: what the controller hands out.
ghost use Rattle.std.specs.Prelude.{◌≡◌};
ghost use Rattle.writing.specs.Pages.{with_text};
ghost use Rattle.answers.specs.Commands.{assign_text, reason_line, chosen_text, next_text, end_text, command_text};

use commands::command::{Command, End, Handed, Reason};
use pieces::piece::{hex_line, put_hex, put_line, put_udid, udid_line};
use udid::Udid;
use wire::address::Address;
use writing::page::Page;

// An address for a target.
fn put_assign(page: &mut Page, u: Udid, a: Address)
    ensures { page.new ≡ with_text page.old (assign_text u a) }
{
    put_udid(page, b"0 next assign ", u);
    hex_line(page, b" 0x", a.0);
}

// Why an address was chosen, to the end of the line.
fn put_reason(page: &mut Page, r: Reason)
    ensures { page.new ≡ with_text page.old (reason_line r) }
{
    match r {
        Reason::Fixed => put_line(page, b" fixed"),
        Reason::Kept => put_line(page, b" kept"),
        Reason::Picked => put_line(page, b" picked"),
        Reason::Claimed => put_line(page, b" claimed"),
    }
}

// A choice that waits: the address for a target, and why that one.
fn put_chosen(page: &mut Page, u: Udid, a: Address, r: Reason)
    ensures { page.new ≡ with_text page.old (chosen_text u a r) }
{
    put_udid(page, b"0 chosen ", u);
    put_hex(page, b" 0x", a.0);
    put_reason(page, r);
}

// Why nothing is to be sent. The controller never hands Nothing out: that is what it has handed out before its first pass.
fn put_over(page: &mut Page, e: End)
    ensures { page.new ≡ with_text page.old (end_text e) }
{
    match e {
        End::Nothing => put_line(page, b"21"),
        End::Ended => put_line(page, b"0 end"),
        End::NoneFree(u) => udid_line(page, b"13 end ", u),
        End::Abandoned => put_line(page, b"14 end"),
        End::NotOutstanding => put_line(page, b"21"),
        End::Chosen(u, a, r) => put_chosen(page, u, a, r),
    }
}

// The command that comes next.
fn put_next(page: &mut Page, k: Command)
    ensures { page.new ≡ with_text page.old (next_text k) }
{
    match k {
        Command::Prepare => put_line(page, b"0 next prepare"),
        Command::GetUdid => put_line(page, b"0 next get"),
        Command::Assign(u, a) => put_assign(page, u, a),
    }
}

// What the controller hands out.
pub fn put_command(page: &mut Page, k: Handed)
    ensures { page.new ≡ with_text page.old (command_text k) }
{
    match k {
        Handed::Send(c) => put_next(page, c),
        Handed::Wait(e) => put_over(page, e),
    }
}
