// Bytes of a phase with their ACKs, from a place of the output on. Each writer answers the place after what it wrote.
ghost use Rattle.std.specs.Prelude.{◌≡◌, ◌++◌, ◌+◌, ◌*◌, ◌≤◌, length, take};
ghost use Rattle.lists.specs.Onto.{onto};
ghost use Rattle.trace.specs.Trace.{acked, in_place};
ghost use Rattle.encode.specs.Pieces.{count_byte, part_bytes};

use trace::shape::Part;
use wire::symbol::ACK;

// Each byte with its ACK.
// Kept: a loop by index. With `for b in s` a call takes some 30 instructions more, and a Quick misses its bar of bench/codec.sh.
fn put_acked(out: &mut [u16], at: usize, s: &[u8]) -> usize
    requires { at + 2 * length s.now ≤ length out.old }
    ensures { (result ≡ at + 2 * length s.now) × (out.new ≡ onto (take at out.old ++ acked s.now) out.old) }
{
    let mut i: usize = 0;
    let mut j: usize = at;
    while i < s.len() {
        out[j] = s[i] as u16;
        out[j + 1] = ACK;
        j += 2;
        i += 1;
    }
    j
}

// One byte with its ACK, where there is one.
pub(crate) fn put_byte_if(out: &mut [u16], at: usize, there: bool, b: u8) -> usize
    requires { at + 2 * length (in_place there b) ≤ length out.old }
    ensures { (result ≡ at + 2 * length (in_place there b)) × (out.new ≡ onto (take at out.old ++ acked (in_place there b)) out.old) }
{
    if there {
        out[at] = b as u16;
        out[at + 1] = ACK;
        at + 2
    } else {
        at
    }
}

// The count byte of data. The remainder takes nothing away where the data are at most 255 bytes.
pub(crate) fn count_of(s: &[u8]) -> u8
    ensures { result ≡ count_byte s.now }
{
    (s.len() % 256) as u8
}

// A part of a message: its count, where it is counted, and its data.
pub(crate) fn put_part(out: &mut [u16], at: usize, a: Part, s: &[u8]) -> usize
    requires { at + 2 * length (part_bytes a s.now) ≤ length out.old }
    ensures { (result ≡ at + 2 * length (part_bytes a s.now)) × (out.new ≡ onto (take at out.old ++ acked (part_bytes a s.now)) out.old) }
{
    let n = put_byte_if(out, at, a.is_counted(), count_of(s));
    put_acked(out, n, s)
}
