// passes: runs a script over the ARP controller and writes what it answers, for tests. An operation is a byte:
//
//   0, and 17 bytes            a new controller: the occupied addresses 0 to 63 as one number, low byte first, then 64 to 127; and the
//                              last pick, where 127 is never picked
//   1                          a pass starts; the command is written
//   2, a count, and symbols    a step; the command is written. Count and symbols are byte pairs, low byte first; at most 1,000
//   3                          all addresses are looked up; 128 finds are written, and a byte with the last pick
//   4, and an address          the module at the address is reported gone; a find is written, and with 0 it has who was unbound
//   5, a count, and symbols    the first half of a step, as 2 is the whole: a choice waits then; the command is written
//   6                          the choice that waits is issued; the command is written
//   7                          the choice that waits is declined; the command is written
//
// The first byte that is none of these, or the end of the input, ends the run. Standard input is read and standard output is written.
#![tactic(auto)]

mod answers;
mod script;

use answers::{write_command, write_find, write_finds};
use arp::start::NEVER_PICKED;
use arp::state::{Controller, Stepped};
use commands::command::{End, Handed};
use pool::Pool;
use script::{read_byte, read_pool, read_trace};
use std::io::{self, Read, Write};
use wire::address::Address;

// A new controller, which has handed out nothing.
fn new_controller(occupied: Pool, last: u8) -> Stepped {
    Stepped {
        state: Controller::new(occupied, last),
        command: Handed::Wait(End::Nothing),
    }
}

// The controller that the script asks for.
fn read_controller(input: &mut impl Read) -> io::Result<Stepped> {
    let occupied = read_pool(input)?;
    let last = read_byte(input)?;
    Ok(new_controller(occupied, last))
}

// The controller goes on to what a call of it left; the command is written.
fn go_on(output: &mut impl Write, next: Stepped, st: &mut Stepped) -> io::Result<()> {
    *st = next;
    write_command(output, next.command)
}

// A report; its answer is written. What was handed out last stays so.
fn report(input: &mut impl Read, output: &mut impl Write, st: &mut Stepped) -> io::Result<()> {
    let a = Address(read_byte(input)?);
    let told = st.state.report_gone(a);
    st.state = told.state;
    write_find(output, told.found)
}

// The state is large: it stays in one place, and what may fail gives nothing back but that. A proved loop has to end, and nothing says that
// an input does: the turns are counted up to a number that no run reaches.
fn run(input: &mut impl Read, output: &mut impl Write) -> io::Result<()> {
    let mut st = new_controller(Pool::empty(), NEVER_PICKED);
    let mut trace = [0u16; 1000];
    for _ in 0..u64::MAX {
        match read_byte(input)? {
            0 => st = read_controller(input)?,
            1 => go_on(output, st.state.start(), &mut st)?,
            2 => {
                let n = read_trace(input, &mut trace)?;
                go_on(output, st.state.step(&trace[..n]), &mut st)?;
            }
            3 => write_finds(output, st.state)?,
            4 => report(input, output, &mut st)?,
            5 => {
                let n = read_trace(input, &mut trace)?;
                go_on(output, st.state.choose(&trace[..n]), &mut st)?;
            }
            6 => go_on(output, st.state.issue(), &mut st)?,
            7 => go_on(output, st.state.decline(), &mut st)?,
            _ => return Ok(()),
        }
    }
    Ok(())
}

// A read or a write that fails ends the run with its error.
fn main(rt: HostRuntime) -> io::Result<()> {
    let mut input = rt.stdin();
    let mut output = rt.stdout();
    run(&mut input, &mut output)
}
