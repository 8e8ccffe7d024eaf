// The arguments help and version.
use std::io::{self, Write};
use text::word::same;

// The requests of the codec, and how words are written.
fn help_codec(output: &mut impl Write) -> io::Result<()> {
    output.write_all(
        b"headboarded: reads requests from standard input, one a line, and answers each\n\
A number is decimal, or hexadecimal after 0x. # begins a comment.\n\n\
pec B...                                             0 pec B\n\
encode P p|- ADDRESS DIRECTION COMMAND w B... r B...   0 trace SYMBOL...\n\
decode P p|- SYMBOL...    0 address A direction D command C w B... r B...\n",
    )
}

// The requests of the shelf.
fn help_shelf(output: &mut impl Write) -> io::Result<()> {
    output.write_all(
        b"occupied A...             0 occupied N\n\
target UDID BYTE FLAG     0 target I\n\
clear                     0 clear\n\
run LAST                  0 bound N get G last A, 13 udid UDID bound N get G last A; who is bound\n\
start                     0 next prepare\n\
step SYMBOL...            0 next get, 0 next assign UDID A, 0 end, 13 end UDID, 14 end\n\
choose SYMBOL...          as step, but an assign waits: 0 chosen UDID A fixed, kept, picked or claimed\n\
issue                     0 next assign UDID A, the choice that waits; 21 if none does\n\
decline                   14 end, the choice that waits is dropped; 21 if none does\n\
lookup A                  0 udid UDID; 15 nobody, 16 claimed by two, 20 left, 1 no address\n\
gone A                    0 gone, a pulled module is unbound; 15, 16, 20, 1 as for lookup\n\
grid                      8 rows of 16: -- free, UU in use, XX claimed by two, LL left\n",
    )
}

// The requests of a module at its own end of the bus.
fn help_module(output: &mut impl Write) -> io::Result<()> {
    output.write_all(
        b"module UDID BYTE FLAG     0 module, at its own end of the bus; a random one may have 8 digits more\n\
m start, m stop, m lost   0 start, 0 stop, 0 lost: START, STOP, arbitration lost\n\
m byte B...               0 and ack or nack for each byte\n\
m supply                  0 byte B, the next byte of a read, or 0 released\n\
m state                   0 module UDID BYTE FLAG, as it is now\n\n",
    )
}

fn help_rest(output: &mut impl Write) -> io::Result<()> {
    output.write_all(
        b"P is a protocol by number or name: quick send_byte receive_byte write_byte write_word\n\
read_byte read_word process_call block_write block_read block_process_call.\n\
p is with PEC, - without. LAST is the address picked last, 127 before the first pick;\n\
run alone is run 127. The first word of an answer is the number of the answer,\n\
or ? with the column and what was expected there.\n",
    )
}

// What the refusals of a trace say to who looks for the fault: which side of the wire sent what is wrong.
fn help_refusals(output: &mut impl Write) -> io::Result<()> {
    output.write_all(
        b"\nWhere to look when decode refuses a trace. See first that P, and p or -, are the trace's.\n\
3   no symbol at all: the capture\n\
4   it ends early: the capture, or one side stopped\n\
5   a symbol out of its place: START or STOP is the controller's, else the wires or the capture\n\
6   no ACK from the target: the target, or nobody is at the address\n\
7   the PEC differs: the wires, or the side that sent the PEC\n\
8   more after STOP: the capture goes on after the transaction\n\
17  ACK for NACK, or NACK for ACK, after a received byte: the controller's side\n\
18  the address byte after a START, or its direction: the controller's side\n\
19  a received count that is too high: the target's side\n",
    )
}

// What the first argument asks for.
pub(crate) fn argument(output: &mut impl Write, word: &[u8]) -> io::Result<()> {
    if same(word, b"help") {
        help_codec(output)?;
        help_shelf(output)?;
        help_module(output)?;
        help_rest(output)?;
        return help_refusals(output);
    }
    if same(word, b"version") {
        return output.write_all(b"headboarded 0.1\n");
    }
    output.write_all(b"? expected the argument help, or version, or none\n")
}
