// A module in the middle of its life, as a record of the model describes it. Nothing is reset by this.
ghost use Rattle.std.specs.Prelude.{◌≡◌};
ghost use Rattle.module.specs.Resume.{is_malformed, lacks_home, recorded, resumed};

use crate::state::{Lasting, Module, silent_in};
use udid::Udid;
use wire::address::WireByte;

// Why there is no module of a record.
#[derive(Clone, Copy, PartialEq, Eq)]
pub enum RecordError {
    // The address byte is even, or the flag is above 1.
    Malformed,
    // It is fixed, and FFh is no address.
    NoHome,
}

// The address byte is even, or the flag is above 1.
fn is_malformed(byte: u8, flag: u8) -> bool
    ensures { result ≡ is_malformed byte flag }
{
    byte % 2 == 0 || flag > 1
}

// It is fixed, and has no address to be fixed at.
fn lacks_home(udid: Udid, byte: u8) -> bool
    ensures { result ≡ lacks_home udid byte }
{
    udid.is_fixed() && byte == 0xFF
}

// FFh is for Address Valid clear; any other byte has the address in its upper seven bits. A fixed one is fixed there.
fn own_of(udid: Udid, byte: u8, flag: u8, fresh: u32) -> Lasting
    ensures { result ≡ recorded udid byte flag fresh }
{
    if byte == 0xFF {
        return Lasting {
            udid,
            valid: false,
            address: 0,
            resolved: flag == 1,
            home: 0xFF,
            fresh,
        };
    }
    Lasting {
        udid,
        valid: true,
        address: byte / 2,
        resolved: flag == 1,
        home: byte / 2,
        fresh,
    }
}

impl Module {
    // The module of a record, as after STOP, or why there is none: the identifier, the address byte and the resolved flag. The fresh bytes
    // are those that a random module takes at its next reset.
    #[tactic(auto, unfolding(crate::specs::Resume::resumed))]
    pub fn of_record(
        udid: Udid,
        byte: WireByte,
        flag: u8,
        fresh: u32,
    ) -> Result<Module, RecordError>
        ensures { result ≡ resumed udid byte.0 flag fresh }
    {
        let b = byte.0;
        if is_malformed(b, flag) {
            return Err(RecordError::Malformed);
        }
        if lacks_home(udid, b) {
            return Err(RecordError::NoHome);
        }
        Ok(silent_in(own_of(udid, b, flag, fresh)))
    }
}
