// Power on: Table 9. And other random bytes for the next reset. Rests on reset.rt.
ghost use Rattle.std.specs.Prelude.{◌≡◌};
ghost use Rattle.module.specs.Reset.{stored, powered, refreshed};

use crate::reset::reset_device;
use crate::state::{Lasting, Module, silent_in};
use udid::Udid;
use wire::address::Address;

// What non-volatile memory or ROM holds; an address above 127 is none.
fn store(udid: Udid, address: u8, fresh: u32) -> Lasting
    ensures { result ≡ stored udid address fresh }
{
    let valid = address < 128;
    Lasting {
        udid,
        valid,
        address: if valid { address } else { 0 },
        resolved: false,
        home: address,
        fresh,
    }
}

impl Module {
    // The address is that of non-volatile memory, or the one that it is fixed at; a number above 127 is none. A random module takes the
    // fresh bytes into its identifier, and keeps them for its next reset too.
    #[tactic(auto, unfolding(crate::specs::Reset::powered))]
    pub fn power_on(udid: Udid, address: Address, fresh: u32) -> Module
        ensures { result ≡ powered udid address.0 fresh }
    {
        silent_in(reset_device(store(udid, address.0, fresh)))
    }

    // Other bytes for the next reset of a random module.
    pub fn refresh(self, fresh: u32) -> Module
        ensures { result ≡ refreshed self fresh }
    {
        Module {
            own: Lasting { fresh, ..self.own },
            ..self
        }
    }
}
