// The symbols of a trace that are no bytes; 0 to 255 are the bytes themselves, and anything above NACK is no symbol.
ghost use Rattle.std.specs.Prelude.{◌≡◌, ltb, leb, eqb};

pub const START: u16 = 256;

pub const STOP: u16 = 257;

pub const ACK: u16 = 258;

pub const NACK: u16 = 259;

// The symbol is a byte.
pub fn is_byte(x: u16) -> bool
    ensures { result ≡ ltb x 256 }
{
    x < 256
}

// The number is a symbol.
pub fn is_symbol(x: u16) -> bool
    ensures { result ≡ leb x 259 }
{
    x <= NACK
}

// Kept: no code here calls these four, but their contracts say which numbers the constants are (docs/PROMISES.md).
pub fn is_start(x: u16) -> bool
    ensures { result ≡ eqb x 256 }
{
    x == START
}

pub fn is_stop(x: u16) -> bool
    ensures { result ≡ eqb x 257 }
{
    x == STOP
}

pub fn is_ack(x: u16) -> bool
    ensures { result ≡ eqb x 258 }
{
    x == ACK
}

pub fn is_nack(x: u16) -> bool
    ensures { result ≡ eqb x 259 }
{
    x == NACK
}
