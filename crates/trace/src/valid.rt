// Which transactions a shape allows: the tests of refusal 1, on the numbers and the lengths of the data.
ghost use Rattle.std.specs.Prelude.{true, ◌⊎◌, ◌≡◌, ◌≤◌};
ghost use Rattle.trace.specs.Allowed.{length_fits, lengths_fit, address_fits, direction_fits, command_fits, sender_fits};
ghost use Rattle.trace.specs.Shapes.{count_in};

use crate::shape::{Part, Shape};
use wire::address::Address;

// The length belongs to its part. Then it is at most 255, or it is counted.
pub fn length_fits(least: u8, a: Part, n: usize) -> bool
    ensures { (result ≡ length_fits least a n) × (result ≡ true → (n ≤ 255) ⊎ (n ≡ count_in a n)) }
{
    match a {
        Part::Nothing => n == 0,
        Part::Fixed(k) => n == k as usize,
        Part::Counted => n >= least as usize,
    }
}

// Both lengths belong, and the counts together are not too many. Then each is at most 255.
#[tactic(auto, unfolding(crate::specs::Allowed::lengths_fit))]
pub fn lengths_fit(sh: Shape, m: usize, n: usize) -> bool
    ensures { (result ≡ lengths_fit sh m n) × (result ≡ true → (m ≤ 255) × (n ≤ 255)) }
{
    if !(length_fits(sh.least, sh.sent, m) && length_fits(sh.least, sh.received, n)) {
        return false;
    }
    let most = sh.most as usize;
    let j = sh.sent.count_in(m);
    let k = sh.received.count_in(n);
    j <= most && k <= most - j
}

pub fn address_fits(sh: Shape, a: Address) -> bool
    ensures { result ≡ address_fits sh a.0 }
{
    if sh.tohost {
        a.is_host()
    } else {
        a.is_seven_bit()
    }
}

// The direction is Quick's alone; elsewhere it is zero.
pub fn direction_fits(sh: Shape, d: u8) -> bool
    ensures { result ≡ direction_fits sh d }
{
    d == 0 || d == 1 && !sh.has_write() && !sh.has_read()
}

// A command byte may be any, but that of a sender is even.
pub fn sender_fits(sh: Shape, c: u16) -> bool
    ensures { result ≡ sender_fits sh c }
{
    !sh.tohost || c % 2 == 0
}

// A command that the protocol lacks is zero.
pub fn command_fits(sh: Shape, c: u8) -> bool
    ensures { result ≡ command_fits sh c }
{
    if sh.command {
        sender_fits(sh, u16::from(c))
    } else {
        c == 0
    }
}
