// What is handed out: a command or an end, and Get UDID with its limit. Rests on the state alone.
ghost use Rattle.std.specs.Prelude.{◌≡◌};
ghost use Rattle.arp.specs.Controller.{handed, asked, not_outstanding};

use super::state::{Controller, Stepped};
use commands::command::{Command, End, Handed};

impl Controller {
    // The state with this handed out.
    pub(crate) fn hand(self, k: Handed) -> Stepped
        ensures { result ≡ handed self k }
    {
        Stepped {
            state: Controller { last: k, ..self },
            command: k,
        }
    }

    // 21: the state as it is, and nothing handed out.
    pub(crate) fn refuse(self) -> Stepped
        ensures { result ≡ not_outstanding self }
    {
        Stepped {
            state: self,
            command: Handed::Wait(End::NotOutstanding),
        }
    }

    // Get UDID, or the end where it would be the 129th of the pass.
    // Kept: the count changes in its place, as in bound.rt.
    pub(crate) fn ask(mut self) -> Stepped
        ensures { result ≡ asked self }
    {
        if self.gets >= 128 {
            return self.hand(Handed::Wait(End::Abandoned));
        }
        self.gets = self.gets + 1;
        self.hand(Handed::Send(Command::GetUdid))
    }
}
