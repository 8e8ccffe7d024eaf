// The packet error code: CRC-8 with x^8+x^2+x+1, start 0, highest bit first. Bytes in a row go by a table, one look-up for each; a byte by
// itself goes without (decision 69). Rests on lists alone.
#![tactic(auto)]

ghost use Rattle.std.specs.Prelude.{◌≡◌, ◌<◌};
ghost use Rattle.pec.specs.Pec.{pec_step, pec_from, pec_of};
ghost use Rattle.pec.specs.Fold.{folded as foldedBack};

mod remainders;
pub mod table;

use table::Table;

// n times x^8, folded back: x^8 leaves x^2+x+1, so it is n times that, where bits are added without carries.
fn folded(n: u16) -> u16
    requires { n < 256 }
    ensures { result ≡ foldedBack n }
{
    4 * n ^ (2 * n ^ n)
}

// The PEC of one byte more, after those that gave c. The byte is added to c, and that times x^8 is folded back. The two bits which then
// stand above x^7 are folded back once more.
pub fn add_byte(c: u8, b: u8) -> u8
    ensures { result ≡ pec_step c b }
{
    let y = folded((c ^ b) as u16);
    let z = folded(y / 256);
    ((y ^ z) % 256) as u8
}

// The PEC of more bytes, after those that gave c.
pub fn add_bytes(c: u8, s: &[u8]) -> u8
    ensures { result ≡ pec_from c s.now }
{
    Table::new().add_bytes(c, s)
}

// The PEC of bytes, from the first on.
pub fn of_bytes(s: &[u8]) -> u8
    ensures { result ≡ pec_of s.now }
{
    add_bytes(0, s)
}
