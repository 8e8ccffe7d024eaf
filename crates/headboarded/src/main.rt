// headboarded: the console. It reads standard input to its end, one request a line, and writes an answer for each, in order; the requests
// are listed by the argument help. Whatever it cannot read as a request it says so, with the column, and goes on.
// Rests on crate requests for what a line means, on the libraries for every answer, and on codec_answers, answers, lookups and module_answers
// for what is printed.
#![tactic(auto)]

mod answer;
mod codec;
mod help;
mod line;
mod numbers;
mod pass;
mod plugged;
mod print;
mod run;
mod setup;
mod shelf;

use help::argument;
use line::{Session, end_last, lines};
use std::env::FillError;
use std::io::{self, Read, Write};
use std::rt::Env;
use writing::page::Page;

// Reads what there is, a line that was typed or a part of a file, and answers its lines, up to the end of the input, where the last line may
// lack its line feed. A proved loop has to end, and nothing says that an input does: the turns are counted up to a number that no run
// reaches.
fn talk(
    input: &mut impl Read,
    output: &mut impl Write,
    page: &mut Page,
    line: &mut [u8],
    records: &mut [u8],
) -> io::Result<()> {
    let mut s = Session::new();
    let mut buffer = [0u8; 65536];
    for _ in 0..u64::MAX {
        let n = input.read(&mut buffer)?;
        if n == 0 {
            return end_last(output, page, &mut s, line, records);
        }
        lines(output, page, &mut s, &buffer[..n], line, records)?;
    }
    Ok(())
}

// The console, with no argument.
fn console(input: &mut impl Read, output: &mut impl Write) -> io::Result<()> {
    let mut line = [0u8; 16384];
    let mut records = [0u8; 2160];
    let mut out = [0u8; 65536];
    let mut page = Page {
        out: &mut out,
        at: 0,
    };
    talk(input, output, &mut page, &mut line, &mut records)
}

// A read or a write that fails ends the run with its error. An argument that has no room in the buffer is none that is known.
fn main(rt: HostRuntime) -> io::Result<()> {
    let mut output = rt.stdout();
    let mut word = [0u8; 16];
    match rt.arg(1, &mut word) {
        Ok(n) => argument(&mut output, &word[..n]),
        Err(FillError::TooLong) => argument(&mut output, b""),
        Err(FillError::NotPresent) => console(&mut rt.stdin(), &mut output),
    }
}
