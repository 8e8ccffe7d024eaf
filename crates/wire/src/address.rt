// A 7-bit address and the byte that carries it on the wire: two kinds, converted only here.
ghost use Rattle.std.specs.Prelude.{◌≡◌, ◌+◌, ◌*◌, ◌/◌, ◌%◌, ltb, eqb};
ghost use Rattle.wire.specs.Addresses.{is_reserved, is_preassigned, is_listed};

// An address. A number above 127 is no address: whoever is to send to one, or to look one up, refuses it.
#[derive(Clone, Copy, PartialEq, Eq)]
pub struct Address(pub u8);

// The byte on the wire: twice the address, plus 1 for a read.
#[derive(Clone, Copy, PartialEq, Eq)]
pub struct WireByte(pub u8);

impl Address {
    pub const DEFAULT: Address = Address(0x61);

    pub const HOST: Address = Address(0x08);

    pub const ALERT_RESPONSE: Address = Address(0x0C);

    // The constants as values, so that a contract says which number each of them is.
    pub fn default_address() -> Address
        ensures { result.0 ≡ 0x61 }
    {
        Address::DEFAULT
    }

    pub fn host() -> Address
        ensures { result.0 ≡ 0x08 }
    {
        Address::HOST
    }

    pub fn alert_response() -> Address
        ensures { result.0 ≡ 0x0C }
    {
        Address::ALERT_RESPONSE
    }

    // Kept: no `From`, which would hide at the call that the direction is dropped.
    // The address that a wire byte carries, for whichever direction. It is always below 128.
    pub fn from_wire(w: WireByte) -> Address
        ensures { result.0 ≡ w.0 / 2 }
    {
        Address(w.0 / 2)
    }

    // The byte for a write. Of a number above 127 only the low seven bits go on the wire.
    pub fn for_write(self) -> WireByte
        ensures { result.0 ≡ 2 * (self.0 % 128) }
    {
        WireByte(2 * (self.0 % 128))
    }

    // The byte for a read, in the same way.
    pub fn for_read(self) -> WireByte
        ensures { result.0 ≡ 2 * (self.0 % 128) + 1 }
    {
        WireByte(2 * (self.0 % 128) + 1)
    }

    // The number is a 7-bit address.
    pub fn is_seven_bit(self) -> bool
        ensures { result ≡ ltb self.0 128 }
    {
        self.0 < 128
    }

    pub fn is_default(self) -> bool
        ensures { result ≡ eqb self.0 0x61 }
    {
        self == Address::DEFAULT
    }

    pub fn is_host(self) -> bool
        ensures { result ≡ eqb self.0 0x08 }
    {
        self == Address::HOST
    }

    pub fn is_alert_response(self) -> bool
        ensures { result ≡ eqb self.0 0x0C }
    {
        self == Address::ALERT_RESPONSE
    }

    // One of the 21 on which no target may stand, not even a fixed one: 00h to 08h, 0Ch, 28h, 37h, 61h, 78h to 7Fh.
    #[tactic(auto, unfolding(crate::specs::Addresses::is_reserved))]
    pub fn is_reserved(self) -> bool
        ensures { result ≡ is_reserved self.0 }
    {
        // Kept: the lowest ones by themselves. In one match they are looked at last, and most calls take longer.
        self.0 <= 0x08 || matches!(self.0, 0x0C | 0x28 | 0x37 | 0x61 | 0x78..=0x7F)
    }

    // One of the other 14 of Table 17: 09h to 0Bh, 2Ch, 2Dh, 40h to 44h, 48h to 4Bh. A fixed target may stand there.
    #[tactic(auto, unfolding(crate::specs::Addresses::is_preassigned))]
    pub fn is_preassigned(self) -> bool
        ensures { result ≡ is_preassigned self.0 }
    {
        // Kept: a match for each row. The four in one take up to half as long again.
        matches!(self.0, 0x09..=0x0B)
            || matches!(self.0, 0x2C..=0x2D)
            || matches!(self.0, 0x40..=0x44)
            || matches!(self.0, 0x48..=0x4B)
    }

    // On a row of Table 17, one of 35: never picked, and never kept by a movable target.
    #[tactic(auto, unfolding(crate::specs::Addresses::is_listed))]
    pub fn is_listed(self) -> bool
        ensures { result ≡ is_listed self.0 }
    {
        self.is_reserved() || self.is_preassigned()
    }
}

impl WireByte {
    // The byte asks for a read.
    pub fn is_read(self) -> bool
        ensures { result ≡ eqb (self.0 % 2) 1 }
    {
        self.0 % 2 == 1
    }
}
