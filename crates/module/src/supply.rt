// A byte asked for: the reply to Get UDID, byte after byte, steps 22 to 25 and 29.
ghost use Rattle.std.specs.Prelude.{◌≡◌};
ghost use Rattle.module.specs.Supply.{address_byte, reply_byte, after_byte, supplied_at, supplies};

use crate::byte::byte_of;
use crate::state::{Lasting, Module, Phase, Supplied, module_at, silent_in};
use pec::add_byte;

// The device address byte: FFh where AV is clear.
#[tactic(auto, unfolding(crate::specs::Supply::address_byte))]
pub fn address_byte(own: Lasting) -> u8
    ensures { result ≡ address_byte own }
{
    if own.valid {
        2 * (own.address % 128) + 1
    } else {
        0xFF
    }
}

// Byte k of the reply: the count, the identifier, the address byte, PEC.
#[tactic(auto, unfolding(crate::specs::Supply::reply_byte))]
fn reply_byte(own: Lasting, pec: u8, k: u8) -> u8
    ensures { result ≡ reply_byte own pec k }
{
    match k {
        0 => 17,
        1..=16 => byte_of(own.udid, k - 1),
        17 => address_byte(own),
        _ => pec,
    }
}

// After byte k, which was b.
fn after_byte(own: Lasting, pec: u8, k: u8, b: u8) -> Module
    ensures { result ≡ after_byte own pec k b }
{
    if k < 18 {
        module_at(own, Phase::Reply, k + 1, add_byte(pec, b), 0)
    } else {
        silent_in(own)
    }
}

// Byte k of the reply, and the module after it.
fn supply_at(own: Lasting, pec: u8, k: u8) -> Supplied
    ensures { result ≡ supplied_at own pec k }
{
    let b = reply_byte(own, pec, k);
    Supplied {
        after: after_byte(own, pec, k, b),
        byte: Some(b),
    }
}

impl Module {
    // A byte is asked for: the next one of its reply, or none, and it stays as it is.
    #[tactic(auto, unfolding(crate::specs::Supply::supplies))]
    pub fn supply(self) -> Supplied
        ensures { result ≡ supplies self }
    {
        match self.phase {
            Phase::Reply => supply_at(self.own, self.pec, self.place),
            _ => Supplied {
                after: self,
                byte: None,
            },
        }
    }
}
