// A module, and what it answers, as structs of numbers, to C and from C.
ghost use Rattle.std.specs.Prelude.{◌≡◌};
ghost use Rattle.c_module.specs.Modules.{module_in, told_module, told_heard, told_supplied, told_resumed};

use crate::phases::{phase_in, phase_number};
use c_arp::parts::HbUdid;
use module::resume::RecordError;
use module::state::{Heard, Lasting, Module, Supplied};

// A module between two events on the bus. The parts up to resolved outlast a packet.
#[repr(C)]
#[derive(Clone, Copy)]
pub struct HbModule {
    pub udid: HbUdid,
    pub fresh: u32,
    pub home: u8,
    pub valid: u8,
    pub address: u8,
    pub resolved: u8,
    pub phase: u8,
    pub place: u8,
    pub pec: u8,
    pub given: u8,
}

// A byte was received: the module after it, and 1 for ACK.
#[repr(C)]
#[derive(Clone, Copy)]
pub struct HbHeard {
    pub after: HbModule,
    pub ack: u32,
}

// A byte was asked for: the module after it, 1 where it has one to send, and the byte.
#[repr(C)]
#[derive(Clone, Copy)]
pub struct HbSupplied {
    pub after: HbModule,
    pub drives: u32,
    pub byte: u32,
}

// A module from a record, or the number of its refusal.
#[repr(C)]
#[derive(Clone, Copy)]
pub struct HbResumed {
    pub after: HbModule,
    pub answer: u32,
}

// The module that C gave. Any number but 0 is true.
impl From<HbModule> for Module {
    ghost from_gives = { λ h m. m ≡ module_in h };

    fn from(h: HbModule) -> Module {
        Module {
            own: Lasting {
                udid: h.udid.into(),
                valid: h.valid != 0,
                address: h.address,
                resolved: h.resolved != 0,
                home: h.home,
                fresh: h.fresh,
            },
            phase: phase_in(h.phase),
            place: h.place,
            pec: h.pec,
            given: h.given,
        }
    }
}

// A module for C.
impl From<Module> for HbModule {
    ghost from_gives = { λ m h. h ≡ told_module m };

    fn from(m: Module) -> HbModule {
        HbModule {
            udid: m.own.udid.into(),
            fresh: m.own.fresh,
            home: m.own.home,
            valid: u8::from(m.own.valid),
            address: m.own.address,
            resolved: u8::from(m.own.resolved),
            phase: phase_number(m.phase),
            place: m.place,
            pec: m.pec,
            given: m.given,
        }
    }
}

// The answer to a byte received, for C.
impl From<Heard> for HbHeard {
    ghost from_gives = { λ a h. h ≡ told_heard a };

    fn from(a: Heard) -> HbHeard {
        HbHeard {
            after: a.after.into(),
            ack: u32::from(a.ack),
        }
    }
}

// The answer to a byte asked for, for C. Where there is none, FFh stands for it, which holds nothing down.
impl From<Supplied> for HbSupplied {
    ghost from_gives = { λ s h. h ≡ told_supplied s };

    fn from(s: Supplied) -> HbSupplied {
        HbSupplied {
            after: s.after.into(),
            drives: u32::from(s.byte.is_some()),
            byte: u32::from(s.byte.unwrap_or(0xFF)),
        }
    }
}

// A refusal has no module: every part of it is 0.
const NO_MODULE: HbModule = HbModule {
    udid: HbUdid { high: 0, low: 0 },
    fresh: 0,
    home: 0,
    valid: 0,
    address: 0,
    resolved: 0,
    phase: 0,
    place: 0,
    pec: 0,
    given: 0,
};

// A module from a record, or why there is none, for C.
impl From<Result<Module, RecordError>> for HbResumed {
    ghost from_gives = { λ r h. h ≡ told_resumed r };

    fn from(r: Result<Module, RecordError>) -> HbResumed {
        match r {
            Ok(m) => HbResumed {
                after: m.into(),
                answer: 0,
            },
            Err(RecordError::Malformed) => HbResumed {
                after: NO_MODULE,
                answer: 10,
            },
            Err(RecordError::NoHome) => HbResumed {
                after: NO_MODULE,
                answer: 12,
            },
        }
    }
}
