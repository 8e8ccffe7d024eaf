// A new controller, and the start of a pass. Rests on the starting pool of crate pool.
ghost use Rattle.std.specs.Prelude.{◌≡◌};
ghost use Rattle.arp.specs.Controller.{last_pick, new_controller, started};

use super::state::{Controller, Stepped};
use commands::command::{Command, End, Handed};
use pool::Pool;
use slots::Slots;

// The last pick of a controller that has picked no address yet.
// Kept: a number, and no Option. C gives the last pick and reads it back, and 127 is none there (HB_NEVER_PICKED).
pub const NEVER_PICKED: u8 = 127;

// The last pick that a controller is made with. A number above 127 is no address, and counts as never picked.
#[tactic(auto, unfolding(crate::specs::Controller::last_pick))]
fn last_pick(last: u8) -> u8
    ensures { result ≡ last_pick last }
{
    if last > 127 { NEVER_PICKED } else { last }
}

impl Controller {
    // A controller before its first pass, with the addresses that are occupied and the last pick. The starting pool is the listed
    // addresses and the occupied ones.
    pub fn new(occupied: Pool, last: u8) -> Controller
        ensures { result ≡ new_controller occupied last }
    {
        Controller {
            occupied,
            pool: Pool::starting(occupied),
            slots: Slots::none(),
            gets: 0,
            last: Handed::Wait(End::Nothing),
            picked: last_pick(last),
        }
    }

    // A pass begins, at any time: nothing is bound, claimed or left, the pool is the starting pool, and Prepare To ARP goes out. The last
    // pick stays.
    pub fn start(self) -> Stepped
        ensures { result ≡ started self }
    {
        let slots = Slots::none();
        let next = Controller {
            pool: Pool::starting(self.occupied),
            slots,
            gets: 0,
            ..self
        };
        next.hand(Handed::Send(Command::Prepare))
    }
}
