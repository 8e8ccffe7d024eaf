// A module's own end of the bus. C keeps the module as a struct of numbers: each call takes it and hands it back.
ghost use Rattle.std.specs.Prelude.{◌≡◌};
ghost use Rattle.module.specs.Receive.{starts, receives, loses, stops};
ghost use Rattle.module.specs.Reset.{powered, refreshed};
ghost use Rattle.module.specs.Resume.{resumed};
ghost use Rattle.module.specs.Supply.{address_byte, supplies};
ghost use Rattle.c_arp.specs.Parts.{udid_in};
ghost use Rattle.c_module.specs.Modules.{lasting_in, module_in, told_module, told_heard, told_supplied, told_resumed};

use c_arp::parts::HbUdid;
use c_module::calls::{
    address_byte_of, lost, of_record, power_on, receive, refresh, start, stop, supply,
};
use c_module::parts::{HbHeard, HbModule, HbResumed, HbSupplied};

// Power on: the identifier, the address that non-volatile memory holds or that it is fixed at, and fresh bytes for a random one.
#[unsafe(no_mangle)]
pub extern "C" fn hb_module_power_on(udid: HbUdid, address: u8, fresh: u32) -> HbModule
    ensures { result ≡ told_module (powered (udid_in udid) address fresh) }
{
    power_on(udid, address, fresh)
}

// A module in the middle of its life, as a record of the model describes it.
#[unsafe(no_mangle)]
pub extern "C" fn hb_module_of_record(udid: HbUdid, byte: u8, flag: u8, fresh: u32) -> HbResumed
    ensures { result ≡ told_resumed (resumed (udid_in udid) byte flag fresh) }
{
    of_record(udid, byte, flag, fresh)
}

// Other bytes for the next reset of a random module.
#[unsafe(no_mangle)]
pub extern "C" fn hb_module_refresh(m: HbModule, fresh: u32) -> HbModule
    ensures { result ≡ told_module (refreshed (module_in m) fresh) }
{
    refresh(m, fresh)
}

// START, or a repeated one.
#[unsafe(no_mangle)]
pub extern "C" fn hb_module_start(m: HbModule) -> HbModule
    ensures { result ≡ told_module (starts (module_in m)) }
{
    start(m)
}

// A byte received.
#[unsafe(no_mangle)]
pub extern "C" fn hb_module_receive(m: HbModule, byte: u8) -> HbHeard
    ensures { result ≡ told_heard (receives (module_in m) byte) }
{
    receive(m, byte)
}

// A byte asked for.
#[unsafe(no_mangle)]
pub extern "C" fn hb_module_supply(m: HbModule) -> HbSupplied
    ensures { result ≡ told_supplied (supplies (module_in m)) }
{
    supply(m)
}

// Arbitration was lost.
#[unsafe(no_mangle)]
pub extern "C" fn hb_module_lost(m: HbModule) -> HbModule
    ensures { result ≡ told_module (loses (module_in m)) }
{
    lost(m)
}

// STOP.
#[unsafe(no_mangle)]
pub extern "C" fn hb_module_stop(m: HbModule) -> HbModule
    ensures { result ≡ told_module (stops (module_in m)) }
{
    stop(m)
}

// The device address byte: FFh where Address Valid is clear.
#[unsafe(no_mangle)]
pub extern "C" fn hb_module_address_byte(m: HbModule) -> u8
    ensures { result ≡ address_byte (lasting_in m) }
{
    address_byte_of(m)
}
