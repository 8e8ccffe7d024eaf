// The packet error code by a table: for each byte the remainder of the byte times x^8, and one look-up for each byte of a message.
// A constant is copied to the stack where it is used. So a caller makes the table once, before its loop, and lends it.
ghost use Rattle.std.specs.Prelude.{◌≡◌};
ghost use Rattle.pec.specs.Pec.{pec_step, pec_from};
ghost use Rattle.pec.specs.Table.{Remainders, step_by, from_by};

use crate::remainders::REMAINDERS;

// Kept: this and the next function, by any table of 256 bytes, since their contracts are promised (docs/PROMISES.md).
// The PEC of one byte more by a table that is lent: its entry at the PEC so far xor the byte.
pub fn add_byte_by(t: &[u8; 256], c: u8, b: u8) -> u8
    ensures { result ≡ step_by t.now c b }
{
    t[(c ^ b) as usize]
}

// The PEC of more bytes by a table that is lent.
pub fn add_bytes_by(t: &[u8; 256], c: u8, s: &[u8]) -> u8
    ensures { result ≡ from_by t.now c s.now }
{
    let mut z = c;
    for b in s {
        z = add_byte_by(t, z, *b);
    }
    z
}

// The table of the remainders; no other has this type.
#[derive(Clone, Copy)]
pub struct Table {
    pub entries: [u8; 256],
    pub ghost remainders: { Remainders entries },
}

impl Table {
    // The table, to be lent.
    pub fn new() -> Table
        ensures { Remainders result.entries }
    {
        Table {
            entries: REMAINDERS,
        }
    }

    // The PEC of one byte more: the entry at the PEC so far xor the byte.
    pub fn add_byte(&self, c: u8, b: u8) -> u8
        ensures { result ≡ pec_step c b }
    {
        add_byte_by(&self.entries, c, b)
    }

    // The PEC of more bytes.
    pub fn add_bytes(&self, c: u8, s: &[u8]) -> u8
        ensures { result ≡ pec_from c s.now }
    {
        add_bytes_by(&self.entries, c, s)
    }
}
