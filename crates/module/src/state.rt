// A module between two events on the bus: what it is, and where it stands in a packet.
ghost use Rattle.std.specs.Prelude.{◌≡◌};
ghost use Rattle.module.specs.State.{at, silent_in, taken, refused};

use udid::Udid;

// What is due next. Each byte that does not fit leads to Silent.
#[derive(Clone, Copy, PartialEq, Eq)]
pub enum Phase {
    // NACK for every byte, and nothing to say, until a START.
    Silent,
    // START has come: the default address is due.
    First,
    // The command is due.
    Command,
    // Get UDID, general, has come: a repeated START is due.
    Asked,
    // Get UDID, directed to this module, has come: a repeated START is due.
    Called,
    // That START has come: the default address for reading is due, or another packet begins.
    AskedAgain,
    CalledAgain,
    // Assign Address: the count is due, a byte of the identifier, the address.
    Count,
    Identifier,
    Given,
    // The PEC of Prepare To ARP, of Reset Device or of Assign Address is due.
    PreparePec,
    ResetPec,
    AssignPec,
    // It supplies its reply to Get UDID.
    Reply,
}

// What outlasts a packet.
#[derive(Clone, Copy)]
pub struct Lasting {
    pub udid: Udid,
    // The flag Address Valid, and the address; 0 where the flag is clear.
    // Kept: two fields, and no Option<Address>. C's struct has both, and hb_module_start and the others hand back an address that
    // C gave with the flag clear (told_parts, refresh of Modules).
    pub valid: bool,
    pub address: u8,
    // The flag Address Resolved.
    pub resolved: bool,
    // The default address of one that is fixed.
    pub home: u8,
    // The vendor-specific bytes that a random one takes at its next reset.
    pub fresh: u32,
}

// A module between two events on the bus.
#[derive(Clone, Copy)]
pub struct Module {
    pub own: Lasting,
    pub phase: Phase,
    // How many bytes of the identifier, or of the reply, are behind it.
    pub place: u8,
    // PEC of the packet so far.
    pub pec: u8,
    // The address that Assign Address gives.
    pub given: u8,
}

// A byte was received: the module after it, and whether it acknowledges.
#[derive(Clone, Copy)]
pub struct Heard {
    pub after: Module,
    pub ack: bool,
}

// A byte was asked for: the module after it, and the byte, if it has one to say. Where it has none, it holds nothing down.
#[derive(Clone, Copy)]
pub struct Supplied {
    pub after: Module,
    pub byte: Option<u8>,
}

// In a phase of a packet.
pub(crate) fn module_at(own: Lasting, phase: Phase, place: u8, pec: u8, given: u8) -> Module
    ensures { result ≡ at own phase place pec given }
{
    Module {
        own,
        phase,
        place,
        pec,
        given,
    }
}

// After STOP, after it has lost, and after a NACK.
pub(crate) fn silent_in(own: Lasting) -> Module
    ensures { result ≡ silent_in own }
{
    module_at(own, Phase::Silent, 0, 0, 0)
}

// The byte fits: ACK.
pub(crate) fn take(own: Lasting, phase: Phase, place: u8, pec: u8, given: u8) -> Heard
    ensures { result ≡ taken own phase place pec given }
{
    Heard {
        after: module_at(own, phase, place, pec, given),
        ack: true,
    }
}

// It does not: NACK, and for every byte up to the next START.
pub(crate) fn refuse(own: Lasting) -> Heard
    ensures { result ≡ refused own }
{
    Heard {
        after: silent_in(own),
        ack: false,
    }
}
