// The second half of a step: the choice that waits is issued or declined. Rests on issue.
ghost use Rattle.std.specs.Prelude.{◌≡◌};
ghost use Rattle.arp.specs.Choosing.{issuing, declining};

use super::state::{Controller, Stepped};
use commands::choice::choice_in;
use commands::command::{Command, End, Handed};

impl Controller {
    // Assign Address goes out for the choice that waits. With none it is 21, and nothing changes.
    #[tactic(auto, unfolding(crate::specs::Choosing::issuing))]
    pub fn issue(self) -> Stepped
        ensures { result ≡ issuing self }
    {
        let Some((u, a)) = choice_in(self.last) else {
            return self.refuse();
        };
        self.hand(Handed::Send(Command::Assign(u, a)))
    }

    // The choice that waits is declined: its target is left unbound, and the pass ends with 14, since the same target would win again.
    // With none it is 21, and nothing changes.
    #[tactic(auto, unfolding(crate::specs::Choosing::declining))]
    pub fn decline(self) -> Stepped
        ensures { result ≡ declining self }
    {
        match choice_in(self.last) {
            Some(_) => self.hand(Handed::Wait(End::Abandoned)),
            None => self.refuse(),
        }
    }
}
