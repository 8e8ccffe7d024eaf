// The state after a symbol: the second of the step's three functions. It is total; where a byte stands only the symbol's low byte counts.
// The PEC with that byte is handed in: how it is worked out is up to whoever drives the step.
ghost use Rattle.std.specs.Prelude.{◌≡◌};
ghost use Rattle.step.specs.Move.{at, byte_read, pec_read, move_slot_with, move_with};

use crate::next::{Aim, Rules};
use crate::state::{Decoder, Due, Slot};
use wire::symbol::ACK;

impl Decoder {
    // At another slot.
    fn at(self, slot: Slot, due: Due, left: u8) -> Decoder
        ensures { result ≡ at self slot due left }
    {
        Decoder {
            slot,
            due,
            left,
            ..self
        }
    }

    // A byte was read, and PEC is `pec` with it: on.
    fn byte_read(self, aim: Aim, due: Due, pec: u8) -> Decoder
        ensures { result ≡ byte_read self aim due pec }
    {
        Decoder {
            slot: aim.slot,
            due,
            left: aim.left,
            pec,
            ..self
        }
    }

    // A byte in PEC's place is held against PEC, and is no part of it.
    fn pec_read(self, due: Due, x: u8) -> Decoder
        ensures { result ≡ pec_read self due x }
    {
        Decoder {
            slot: Slot::Stop,
            due,
            left: 0,
            good: x == self.pec,
            ..self
        }
    }

    // After a symbol at its slot; x is the symbol's low byte.
    fn move_slot(self, rules: Rules, x: u8, after: u8) -> Decoder
        ensures { result ≡ move_slot_with rules.shape rules.pec self.slot self x after }
    {
        match self.slot {
            Slot::Start => self.at(Slot::First, Due::Nobody, 0),
            Slot::First => Decoder {
                first: x,
                ..self.byte_read(rules.after_first(), Due::Target, after)
            },
            Slot::Command => Decoder {
                command: x,
                ..self.byte_read(rules.to_sent(), Due::Target, after)
            },
            Slot::Count => Decoder {
                sentcount: x,
                ..self.byte_read(rules.to_data(x), Due::Target, after)
            },
            Slot::Data => self.byte_read(rules.to_data(self.left), Due::Target, after),
            Slot::Pec => self.pec_read(Due::Target, x),
            Slot::Restart => self.at(Slot::Second, Due::Nobody, 0),
            Slot::Second => self.byte_read(rules.to_read(), Due::Target, after),
            Slot::ReadCount => Decoder {
                readcount: x,
                ..self.byte_read(rules.to_read_data(x), Due::Controller, after)
            },
            Slot::ReadData => {
                self.byte_read(rules.to_read_data(self.left), Due::Controller, after)
            }
            Slot::ReadPec => self.pec_read(Due::Controller, x),
            Slot::Stop | Slot::End => self.at(Slot::End, Due::Nobody, 0),
        }
    }

    // After a symbol. `after` is the PEC with the symbol's low byte; where no byte is read it does not count.
    pub fn moved(self, rules: Rules, x: u16, after: u8) -> Decoder
        ensures { result ≡ move_with rules.shape rules.pec self x after }
    {
        match self.due {
            Due::Nobody => self.move_slot(rules, (x % 256) as u8, after),
            Due::Target if x == ACK => self.at(self.slot, Due::Nobody, self.left),
            Due::Target => self.at(self.slot, Due::Halted, self.left),
            Due::Controller => self.at(self.slot, Due::Nobody, self.left),
            Due::Halted | Due::Cut => self.at(self.slot, Due::Cut, 0),
        }
    }
}
