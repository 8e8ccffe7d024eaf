// The calls of a module's firmware: each takes the module that C keeps, and hands it back.
ghost use Rattle.std.specs.Prelude.{◌≡◌};
ghost use Rattle.module.specs.Receive.{starts, receives, loses, stops};
ghost use Rattle.module.specs.Reset.{powered, refreshed};
ghost use Rattle.module.specs.Resume.{resumed};
ghost use Rattle.module.specs.Supply.{address_byte, supplies};
ghost use Rattle.c_arp.specs.Parts.{udid_in};
ghost use Rattle.c_module.specs.Modules.{lasting_in, module_in, told_module, told_heard, told_supplied, told_resumed};

use crate::parts::{HbHeard, HbModule, HbResumed, HbSupplied};
use c_arp::parts::HbUdid;
use module::state::Module;
use module::supply::address_byte;
use wire::address::{Address, WireByte};

// Power on.
pub fn power_on(udid: HbUdid, address: u8, fresh: u32) -> HbModule
    ensures { result ≡ told_module (powered (udid_in udid) address fresh) }
{
    Module::power_on(udid.into(), Address(address), fresh).into()
}

// From a record of the model.
pub fn of_record(udid: HbUdid, byte: u8, flag: u8, fresh: u32) -> HbResumed
    ensures { result ≡ told_resumed (resumed (udid_in udid) byte flag fresh) }
{
    Module::of_record(udid.into(), WireByte(byte), flag, fresh).into()
}

// Other bytes for the next reset.
pub fn refresh(h: HbModule, fresh: u32) -> HbModule
    ensures { result ≡ told_module (refreshed (module_in h) fresh) }
{
    Module::from(h).refresh(fresh).into()
}

// START, or a repeated one.
pub fn start(h: HbModule) -> HbModule
    ensures { result ≡ told_module (starts (module_in h)) }
{
    Module::from(h).start().into()
}

// A byte received.
pub fn receive(h: HbModule, byte: u8) -> HbHeard
    ensures { result ≡ told_heard (receives (module_in h) byte) }
{
    Module::from(h).receive(byte).into()
}

// A byte asked for.
pub fn supply(h: HbModule) -> HbSupplied
    ensures { result ≡ told_supplied (supplies (module_in h)) }
{
    Module::from(h).supply().into()
}

// Arbitration was lost.
pub fn lost(h: HbModule) -> HbModule
    ensures { result ≡ told_module (loses (module_in h)) }
{
    Module::from(h).lost().into()
}

// STOP.
pub fn stop(h: HbModule) -> HbModule
    ensures { result ≡ told_module (stops (module_in h)) }
{
    Module::from(h).stop().into()
}

// The device address byte.
pub fn address_byte_of(h: HbModule) -> u8
    ensures { result ≡ address_byte (lasting_in h) }
{
    address_byte(Module::from(h).own)
}
