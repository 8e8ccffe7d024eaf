// The step: what a received trace tells, what that changes, and which address is chosen. Its first half lets the choice wait; the whole step
// issues it directly. Both go the same way through these functions, by `direct`. Rests on told, bound and issue, and on crate picking.
ghost use Rattle.std.specs.Prelude.{◌≡◌, Some};
ghost use Rattle.lists.specs.Choice.{pick};
ghost use Rattle.commands.specs.declared.command.Command.TheVariants.{Assign};
ghost use Rattle.commands.specs.declared.command.End.TheVariants.{Chosen};
ghost use Rattle.commands.specs.declared.command.Handed.TheVariants.{Send, Wait};
ghost use Rattle.arp.specs.Choosing.{waiting_with, decided, decided_on, first_half};
ghost use Rattle.arp.specs.Controller.{issued, replied, changed, stepped};

use super::state::{Controller, Stepped};
use commands::command::{Command, End, Handed, Reason};
use hearing::told::{Told, tell};
use picking::choose::{choose, has_to_pick, pick_after, reason_for};
use picking::claim::makes_claim;
use udid::Udid;
use wire::address::Address;

// Kept: the flag `direct`. A step that is `choose` and then `issue` needs no flag, and its proof closes, but it copies the state's 2 KB once
// more: 3,551 instructions, and the bar of bench/step.sh is 3,500 (decision 117).
// What is handed out for a choice: the Assign where it goes out directly, else the choice itself, which waits.
fn choice_for(direct: bool, u: Udid, a: Address, reason: Reason) -> Handed
    ensures { result ≡ pick direct (Send (Assign u a)) (Wait (Chosen u a reason)) }
{
    if direct {
        Handed::Send(Command::Assign(u, a))
    } else {
        Handed::Wait(End::Chosen(u, a, reason))
    }
}

impl Controller {
    // This address is chosen for this target. If it was picked it is the last pick from then on, whatever becomes of the choice.
    fn settle(mut self, direct: bool, u: Udid, picks: bool, a: Address) -> Stepped
        ensures { result ≡ pick direct (issued self u picks (Some a)) (waiting_with self u picks (Some a)) }
    {
        let slots = self.slots;
        let taken = makes_claim(self.occupied, slots.held_at(a), a);
        let reason = reason_for(taken, picks, u.is_fixed());
        self.picked = pick_after(picks, a, self.picked);
        self.hand(choice_for(direct, u, a, reason))
    }

    // A target has replied: it is unbound from whatever it was bound to, and an address is chosen for it.
    fn on_reply(self, direct: bool, u: Udid, b: u8) -> Stepped
        ensures { result ≡ pick direct (replied self u b) (decided self u b) }
    {
        let next = self.free(u);
        let pool = next.pool;
        let last = next.picked;
        let Some(a) = choose(pool, last, u, b) else {
            return next.hand(Handed::Wait(End::NoneFree(u)));
        };
        next.settle(direct, u, has_to_pick(pool, u, b), a)
    }

    // What is told changes the state, and names what comes next. Where no command is outstanding the state stays as it is.
    fn change(self, direct: bool, told: Told) -> Stepped
        ensures { result ≡ pick direct (changed self told) (decided_on self told) }
    {
        match told {
            Told::Again => self.ask(),
            Told::Over => self.hand(Handed::Wait(End::Ended)),
            Told::GivenUp => self.hand(Handed::Wait(End::Abandoned)),
            Told::Reply(u, b) => self.on_reply(direct, u, b),
            Told::Took(u, a) => {
                let next = self.bind(u, a);
                next.ask()
            }
            Told::Unasked => self.refuse(),
        }
    }

    // The first half of a step, for a received trace, whatever it holds: all that the trace tells is done, but an address that is chosen
    // is not sent. The choice waits for `issue` or `decline`. While it waits every trace is answered with 21, and nothing changes.
    pub fn choose(self, trace: &[u16]) -> Stepped
        ensures { result ≡ first_half self trace.now }
    {
        self.change(false, tell(self.last, trace))
    }

    // One step, for a received trace, whatever it holds: `choose`, and the address that is chosen is issued directly.
    pub fn step(self, trace: &[u16]) -> Stepped
        ensures { result ≡ stepped self trace.now }
    {
        self.change(true, tell(self.last, trace))
    }
}
