// A PEC received: it is held against that of the bytes before it, and only then the command takes effect.
ghost use Rattle.std.specs.Prelude.{◌≡◌};
ghost use Rattle.module.specs.Receive.{at_pec};

use crate::state::{Heard, Lasting, Phase, refuse, take};

// The PEC of a command that makes this of the module.
pub(crate) fn check_pec(effect: Lasting, own: Lasting, pec: u8, b: u8) -> Heard
    ensures { result ≡ at_pec effect own pec b }
{
    if b == pec {
        take(effect, Phase::Silent, 0, 0, 0)
    } else {
        refuse(own)
    }
}
