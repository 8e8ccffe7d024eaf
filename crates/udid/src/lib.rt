// The unique device identifier of a target: 128 bits as two halves, and its 16 bytes on the wire, highest byte first. Rests on lists.
#![tactic(auto)]

pub mod compare;
pub mod kind;
pub mod read;
pub mod write;

// The high half holds capabilities, version, vendor, device and interface, the low one subsystem vendor, subsystem device and the
// vendor-specific 32 bits.
#[derive(Clone, Copy, PartialEq, Eq, PartialOrd, Ord)]
pub struct Udid {
    pub high: u64,
    pub low: u64,
}

impl Udid {
    // All bits zero: what stands where there is no identifier.
    pub const ZERO: Udid = Udid { high: 0, low: 0 };
}
