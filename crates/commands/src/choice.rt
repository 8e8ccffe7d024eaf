// The choice that waits to be issued or declined, where one does.
ghost use Rattle.std.specs.Prelude.{◌≡◌};
ghost use Rattle.commands.specs.Choices.{in_end, choice_in};

use super::command::{End, Handed};
use udid::Udid;
use wire::address::Address;

// The choice that an end tells of.
fn in_end(e: End) -> Option<(Udid, Address)>
    ensures { result ≡ in_end e }
{
    match e {
        End::Chosen(u, a, _) => Some((u, a)),
        _ => None,
    }
}

// The choice that waits where this was handed out last: this address for this target.
pub fn choice_in(k: Handed) -> Option<(Udid, Address)>
    ensures { result ≡ choice_in k }
{
    match k {
        Handed::Send(_) => None,
        Handed::Wait(e) => in_end(e),
    }
}
