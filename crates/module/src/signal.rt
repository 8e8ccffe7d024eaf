// START, STOP, and arbitration lost.
ghost use Rattle.std.specs.Prelude.{◌≡◌};
ghost use Rattle.module.specs.Receive.{starts, loses, stops};

use crate::state::{Module, Phase, module_at, silent_in};

impl Module {
    // A START, or a repeated one: a new packet, whose default address is due, or more of Get UDID.
    #[tactic(auto, unfolding(crate::specs::Receive::starts))]
    pub fn start(self) -> Module
        ensures { result ≡ starts self }
    {
        match self.phase {
            Phase::Asked => module_at(self.own, Phase::AskedAgain, 0, self.pec, 0),
            Phase::Called => module_at(self.own, Phase::CalledAgain, 0, self.pec, 0),
            _ => module_at(self.own, Phase::First, 0, 0, 0),
        }
    }

    // Another has sent a zero where this module sent a one: it is silent until the next START.
    pub fn lost(self) -> Module
        ensures { result ≡ loses self }
    {
        silent_in(self.own)
    }

    // A STOP: it is silent until the next START.
    pub fn stop(self) -> Module
        ensures { result ≡ stops self }
    {
        self.lost()
    }
}
