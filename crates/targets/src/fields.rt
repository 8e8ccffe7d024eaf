// The fields of a record. A byte that the list does not have counts as zero. Rests on wire and udid.
ghost use Rattle.std.specs.Prelude.{◌≡◌, ◌+◌, ◌*◌, ◌/◌, length, get_or};
ghost use Rattle.udid.specs.Udids.{same_udid};
ghost use Rattle.targets.specs.Records.{record_size, udid_of, address_byte, flag_of};

use udid::Udid;
use wire::address::{Address, WireByte};

// The bytes of a record.
pub const RECORD: usize = 18;

// Where its device address byte stands in it, after the 16 of the identifier.
pub const ADDRESS_AT: usize = 16;

// Where its resolved flag stands in it.
pub const FLAG_AT: usize = 17;

// The most targets that a list may have.
pub const MOST_TARGETS: usize = 120;

// How many whole records the list has.
pub fn count(records: &[u8]) -> usize
    ensures { result ≡ length records.now / record_size }
{
    records.len() / RECORD
}

// Record i of a list.
#[derive(Clone, Copy)]
pub struct Record<'a> {
    pub records: &'a [u8],
    pub i: usize,
}

impl<'a> Record<'a> {
    // Byte k after its start, where the list may end before it.
    fn far_byte(self, k: usize) -> u8
        ensures { result ≡ get_or self.entry.records.now (self.entry.i * record_size + k) 0 }
    {
        if self.i > self.records.len() / RECORD {
            return 0;
        }
        let at = self.i * RECORD;
        if k >= self.records.len() - at {
            return 0;
        }
        self.records[at + k]
    }

    // Byte k of it. Of a whole record one test is enough.
    fn byte(self, k: usize) -> u8
        ensures { result ≡ get_or self.entry.records.now (self.entry.i * record_size + k) 0 }
    {
        if k < RECORD && self.i < self.records.len() / RECORD {
            return self.records[self.i * RECORD + k];
        }
        self.far_byte(k)
    }

    // Its identifier.
    pub fn udid(self) -> Udid
        ensures { result ≡ udid_of self.entry.records.now self.entry.i }
    {
        if self.i > self.records.len() / RECORD {
            return Udid::ZERO;
        }
        Udid::from_bytes(self.records, self.i * RECORD)
    }

    // The high half of it.
    pub fn high(self) -> u64
        ensures { result ≡ (udid_of self.entry.records.now self.entry.i).high }
    {
        if self.i > self.records.len() / RECORD {
            return 0;
        }
        Udid::high_at(self.records, self.i * RECORD)
    }

    // It is this one.
    pub fn is_of(self, u: Udid) -> bool
        ensures { result ≡ same_udid (udid_of self.entry.records.now self.entry.i) u }
    {
        if self.i > self.records.len() / RECORD {
            return Udid::ZERO.is_same(u);
        }
        u.stands_at(self.records, self.i * RECORD)
    }

    // Its device address byte: the address in the upper seven bits, FFh for none.
    pub fn address_byte(self) -> u8
        ensures { result ≡ address_byte self.entry.records.now self.entry.i }
    {
        self.byte(ADDRESS_AT)
    }

    // The address in that byte: FFh counts as 7Fh.
    pub fn address(self) -> Address
        ensures { result.0 ≡ address_byte self.entry.records.now self.entry.i / 2 }
    {
        Address::from_wire(WireByte(self.address_byte()))
    }

    // Its resolved flag: 1 where its address is resolved.
    pub fn flag(self) -> u8
        ensures { result ≡ flag_of self.entry.records.now self.entry.i }
    {
        self.byte(FLAG_AT)
    }
}
