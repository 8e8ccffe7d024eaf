// The kind of the target's address: the top two bits of the capabilities, which are the top two of the identifier.
// Rests on the high half alone.
ghost use Rattle.std.specs.Prelude.{◌≡◌};
ghost use Rattle.udid.specs.Udids.{address_kind, is_fixed};

use super::Udid;

// Who says where the target stands, and what a reset leaves of it.
#[derive(Clone, Copy, PartialEq, Eq)]
pub enum AddressKind {
    // At the address that it is fixed at.
    Fixed,
    // Movable; a reset keeps the address.
    Persistent,
    // Movable; a reset forgets it.
    Volatile,
    // Movable; a reset forgets it, and takes other vendor-specific bytes.
    Random,
}

impl Udid {
    // The top two bits: 00, 01, 10, 11.
    pub fn address_kind(self) -> AddressKind
        ensures { result ≡ address_kind self }
    {
        match self.high / 0x4000_0000_0000_0000 {
            0 => AddressKind::Fixed,
            1 => AddressKind::Persistent,
            2 => AddressKind::Volatile,
            _ => AddressKind::Random,
        }
    }

    // The top two bits are 00. With any others the target's address is movable.
    pub fn is_fixed(self) -> bool
        ensures { result ≡ is_fixed self }
    {
        self.high / 0x4000_0000_0000_0000 == 0
    }
}
