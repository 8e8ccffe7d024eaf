// The protocols by name: one text with a word for each row of the table, in the order of the rows. Rests on text.
#![tactic(auto)]

ghost use Rattle.std.specs.Prelude.{◌≡◌};
ghost use Rattle.names.specs.Names.{place_in, protocol_named};

use text::word::{next_word, part, same};

// Which word of a text the word is, from 0, where it is one of the first 255.
fn place_in(names: &[u8], s: &[u8]) -> Option<u8>
    ensures { result ≡ place_in 255 names.now s.now 0 0 }
{
    let mut at = 0;
    for k in 0..255 {
        let w = next_word(names, at);
        if w.from >= names.len() {
            return None;
        }
        if same(part(names, w.from, w.to), s) {
            return Some(k);
        }
        at = w.to;
    }
    None
}

// The number of the protocol of a name.
// Kept: the names are one text and no array, since the theorem `as_many_as_rows` counts its words.
pub fn protocol_named(s: &[u8]) -> Option<u8>
    ensures { result ≡ protocol_named s.now }
{
    place_in(
        b"quick send_byte receive_byte write_byte write_word read_byte read_word process_call block_write block_read block_process_call",
        s,
    )
}
