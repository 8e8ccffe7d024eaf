// The numbers of a line from a place on, in a lent buffer. A line has room for at most 8,192 numbers.
use requests::list::{read_bytes, read_symbols};

// Bytes.
pub(crate) fn bytes<'a>(text: &[u8], from: usize, buffer: &'a mut [u8]) -> &'a [u8] {
    let n = read_bytes(text, from, buffer);
    &buffer[..n]
}

// Symbols of a trace.
pub(crate) fn symbols<'a>(text: &[u8], from: usize, buffer: &'a mut [u16]) -> &'a [u16] {
    let n = read_symbols(text, from, buffer);
    &buffer[..n]
}
