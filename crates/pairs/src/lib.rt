// Symbols as pairs of bytes, the low byte first: how a trace stands in a buffer of bytes.
#![tactic(auto)]

ghost use Rattle.std.specs.Prelude.{◌≡◌, ◌*◌, ◌≤◌, ltb, length};
ghost use Rattle.lists.specs.Choice.{pick};
ghost use Rattle.lists.specs.Onto.{onto};
ghost use Rattle.pairs.specs.Pairs.{pairs_of, symbols_in, Put, Got};

// The bytes of symbols, to the front of a buffer that has room for them.
fn write_pairs(out: &mut [u8], symbols: &[u16])
    requires { 2 * length symbols.now ≤ length out.old }
    ensures { out.new ≡ onto (pairs_of symbols.now) out.old }
{
    for (i, x) in symbols.iter().enumerate() {
        let [low, high] = x.to_le_bytes();
        out[2 * i] = low;
        out[2 * i + 1] = high;
    }
}

// The first n symbols that bytes are, to the front of a buffer.
fn read_pairs(symbols: &mut [u16], bytes: &[u8], n: usize)
    requires { (n ≤ length symbols.old) × (2 * n ≤ length bytes.now) }
    ensures { symbols.new ≡ onto (symbols_in n bytes.now) symbols.old }
{
    for i in 0..n {
        symbols[i] = u16::from_le_bytes([bytes[2 * i], bytes[2 * i + 1]]);
    }
}

// The pairs of symbols, to the front of a buffer. False where it has no room for them, and then it stays as it is.
pub fn put_pairs(out: &mut [u8], symbols: &[u16]) -> bool
    ensures { Put symbols.now out.old result out.new }
{
    if out.len() / 2 < symbols.len() {
        return false;
    }
    write_pairs(out, symbols);
    true
}

// The symbols that bytes are, to the front of a buffer, as many as it has room for. Says how many. A byte after the last whole pair is not read.
pub fn get_pairs(symbols: &mut [u16], bytes: &[u8]) -> usize
    ensures { Got bytes.now symbols.old result symbols.new }
{
    let n = symbols.len().min(bytes.len() / 2);
    read_pairs(symbols, bytes, n);
    n
}
