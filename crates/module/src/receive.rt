// A byte received: ACK or NACK, and the module after it.
ghost use Rattle.std.specs.Prelude.{◌≡◌};
ghost use Rattle.module.specs.Receive.{receives};
ghost use Rattle.pec.specs.Pec.{pec_step};

use crate::command::first;
use crate::effect::check_pec;
use crate::incoming::Incoming;
use crate::reset::{assign, prepare, reset_device};
use crate::state::{Heard, Module, Phase, refuse, take};
use pec::add_byte;

impl Module {
    // A byte within a packet, with the PEC of the packet up to it.
    fn incoming(self, b: u8) -> Incoming
        ensures { result ≡ record { own = self.own; pec = pec_step self.pec b; byte = b } }
    {
        Incoming {
            own: self.own,
            pec: add_byte(self.pec, b),
            byte: b,
        }
    }

    // A byte was received: ACK where it fits what is due, else NACK, and silence up to the next START.
    #[tactic(auto, unfolding(crate::specs::Receive::receives))]
    pub fn receive(self, b: u8) -> Heard
        ensures { result ≡ receives self b }
    {
        let own = self.own;
        match self.phase {
            Phase::Silent | Phase::Asked | Phase::Called | Phase::Reply => refuse(own),
            Phase::First => first(own, b),
            Phase::Command => self.incoming(b).command(),
            Phase::AskedAgain => self.incoming(b).again(own.resolved),
            Phase::CalledAgain => self.incoming(b).again(false),
            Phase::Count => self.incoming(b).count(),
            Phase::Identifier => self.incoming(b).identifier(self.place),
            Phase::Given => take(own, Phase::AssignPec, 0, add_byte(self.pec, b), b / 2),
            Phase::PreparePec => check_pec(prepare(own), own, self.pec, b),
            Phase::ResetPec => check_pec(reset_device(own), own, self.pec, b),
            Phase::AssignPec => check_pec(assign(own, self.given), own, self.pec, b),
        }
    }
}
