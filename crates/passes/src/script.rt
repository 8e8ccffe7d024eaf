// The script's bytes.
ghost use Rattle.std.specs.Prelude.{◌*◌, ◌≤◌, length, IfOk};

use pool::Pool;
use std::io::{self, Read};

// Reads until the buffer is full or the input ends. What the input does not reach stays as it is.
// Kept: read_exact is no plainer here, where the end of the input is no error: a script ends there.
fn read_full(input: &mut impl Read, buffer: &mut [u8]) -> io::Result<()> {
    let mut rest = buffer;
    for _ in 0..u64::MAX {
        if rest.is_empty() {
            break;
        }
        let n = input.read(rest)?;
        if n == 0 {
            break;
        }
        rest = &mut rest[n..];
    }
    Ok(())
}

// The next byte; 255, which is no operation, at the end.
pub(crate) fn read_byte(input: &mut impl Read) -> io::Result<u8> {
    let mut byte = [255u8; 1];
    read_full(input, &mut byte)?;
    Ok(byte[0])
}

pub(crate) fn read_pool(input: &mut impl Read) -> io::Result<Pool> {
    let mut bytes = [0u8; 16];
    read_full(input, &mut bytes)?;
    let [a, b, c, d, e, f, g, h, i, j, k, l, m, n, o, p] = bytes;
    Ok(Pool {
        low: u64::from_le_bytes([a, b, c, d, e, f, g, h]),
        high: u64::from_le_bytes([i, j, k, l, m, n, o, p]),
    })
}

// The symbols of byte pairs.
fn symbols(trace: &mut [u16], bytes: &[u8], n: usize)
    requires { (n ≤ length trace.old) × (2 * n ≤ length bytes.now) }
{
    for i in 0..n {
        trace[i] = u16::from_le_bytes([bytes[2 * i], bytes[2 * i + 1]]);
    }
}

fn read_count(input: &mut impl Read) -> io::Result<usize> {
    let mut count = [0u8; 2];
    read_full(input, &mut count)?;
    Ok(usize::from(u16::from_le_bytes(count)))
}

fn read_pairs(input: &mut impl Read, bytes: &mut [u8], n: usize) -> io::Result<()>
    requires { 2 * n ≤ length bytes.old }
{
    let end = 2 * n;
    read_full(input, &mut bytes[..end])
}

// Reads a trace, and answers how many symbols it has; none where there are more than 1,000.
pub(crate) fn read_trace(input: &mut impl Read, trace: &mut [u16]) -> io::Result<usize>
    requires { 1000 ≤ length trace.old }
    ensures { IfOk result (λ n. n ≤ length trace.new) }
{
    let n = read_count(input)?;
    if n > 1000 {
        return Ok(0);
    }
    let mut bytes = [0u8; 2000];
    read_pairs(input, &mut bytes, n)?;
    symbols(trace, &bytes, n);
    Ok(n)
}
