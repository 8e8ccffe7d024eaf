// The table of the protocols: their names, the limits of a transaction, and the row of each.
ghost use Rattle.std.specs.Prelude.{◌≡◌};
ghost use Rattle.trace.specs.Shapes.{shape_of, forbidden};
ghost use Rattle.trace.specs.Shapes.{row as row_of};

use crate::shape::{Part, Shape};

// Kept: numbers, not an enum. Every entry takes any u8 and refuses those that are no protocol (`forbidden_cases`), so an enum would only
// stand between two matches.
pub const QUICK: u8 = 0;

pub const SEND_BYTE: u8 = 1;

pub const RECEIVE_BYTE: u8 = 2;

pub const WRITE_BYTE: u8 = 3;

pub const WRITE_WORD: u8 = 4;

pub const READ_BYTE: u8 = 5;

pub const READ_WORD: u8 = 6;

pub const PROCESS_CALL: u8 = 7;

pub const BLOCK_WRITE: u8 = 8;

pub const BLOCK_READ: u8 = 9;

pub const BLOCK_PROCESS_CALL: u8 = 10;

// How many protocols there are: each has the number of its row, and the next number is no protocol.
pub const PROTOCOLS: u8 = 11;

// The most bytes of data in one direction.
pub const MOST_DATA: usize = 255;

// The most that the counts of a transaction say together.
pub const MOST_COUNTED: u8 = 255;

// The symbols of the longest trace.
pub const LONGEST_TRACE: usize = 525;

// A row with every count that a byte can hold, to any address.
fn row(checked: bool, command: bool, sent: Part, received: Part) -> Shape
    ensures { result ≡ row_of checked command sent received }
{
    Shape {
        command,
        sent,
        received,
        checked,
        tohost: false,
        least: 0,
        most: MOST_COUNTED,
    }
}

// The shape of a protocol: its row. A number that is in no row gets Quick's, and is_forbidden says so.
pub fn shape_of(protocol: u8) -> Shape
    ensures { result ≡ shape_of protocol }
{
    match protocol {
        QUICK => row(false, false, Part::Nothing, Part::Nothing),
        SEND_BYTE => row(true, false, Part::Fixed(1), Part::Nothing),
        RECEIVE_BYTE => row(true, false, Part::Nothing, Part::Fixed(1)),
        WRITE_BYTE => row(true, true, Part::Fixed(1), Part::Nothing),
        WRITE_WORD => row(true, true, Part::Fixed(2), Part::Nothing),
        READ_BYTE => row(true, true, Part::Nothing, Part::Fixed(1)),
        READ_WORD => row(true, true, Part::Nothing, Part::Fixed(2)),
        PROCESS_CALL => row(true, true, Part::Fixed(2), Part::Fixed(2)),
        BLOCK_WRITE => row(true, true, Part::Counted, Part::Nothing),
        BLOCK_READ => row(true, true, Part::Nothing, Part::Counted),
        BLOCK_PROCESS_CALL => row(true, true, Part::Counted, Part::Counted),
        _ => row(false, false, Part::Nothing, Part::Nothing),
    }
}

// 1: a protocol that the table lacks, or a PEC where none may be used.
pub fn is_forbidden(protocol: u8, pec: bool) -> bool
    ensures { result ≡ forbidden protocol pec }
{
    protocol >= PROTOCOLS || pec && !shape_of(protocol).checked
}
