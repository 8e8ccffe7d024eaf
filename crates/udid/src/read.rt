// An identifier from its bytes, highest byte first, at any place of a slice. A byte that the slice does not have counts as zero.
// What is read is what was written: proofs/UdidLaws, udid_back and bytes_back.
ghost use Rattle.std.specs.Prelude.{◌≡◌, ◌+◌, ◌<◌, ◌≤◌, length};
ghost use Rattle.udid.specs.Bytes.{number, bytes_from, udid_at};
ghost use Rattle.udid.specs.Udids.{same_udid};

use super::Udid;

// The number that four bytes make, all of which the slice has. It compiles to one load.
fn half(s: &[u8], at: usize) -> u32
    requires { at + 4 ≤ length s.now }
    ensures { result ≡ number (bytes_from s.now at 4) }
{
    u32::from_be_bytes([s[at], s[at + 1], s[at + 2], s[at + 3]])
}

// The number that eight bytes make, all of which the slice has.
// Kept: two halves. u64::from_be_bytes is a sum of eight terms, which compiles to eight loads.
fn whole(s: &[u8], at: usize) -> u64
    requires { at + 8 ≤ length s.now }
    ensures { result ≡ number (bytes_from s.now at 8) }
{
    0x1_0000_0000 * u64::from(half(s, at)) + u64::from(half(s, at + 4))
}

impl Udid {
    // The identifier whose bytes stand from a place on, where the slice ends before the last of them: zeros follow it.
    fn from_few(s: &[u8], at: usize) -> Udid
        requires { length s.now < at + 16 }
        ensures { result ≡ udid_at s.now at }
    {
        let mut bytes = [0u8; 16];
        if at < s.len() {
            bytes[..s.len() - at].copy_from_slice(&s[at..]);
        }
        Udid {
            high: whole(&bytes, 0),
            low: whole(&bytes, 8),
        }
    }

    // The identifier whose bytes stand from a place on.
    pub fn from_bytes(s: &[u8], at: usize) -> Udid
        ensures { result ≡ udid_at s.now at }
    {
        if s.len() < 16 || at > s.len() - 16 {
            return Udid::from_few(s, at);
        }
        Udid {
            high: whole(s, at),
            low: whole(s, at + 8),
        }
    }

    // The high half of the identifier whose bytes stand from a place on.
    pub fn high_at(s: &[u8], at: usize) -> u64
        ensures { result ≡ (udid_at s.now at).high }
    {
        if s.len() < 8 || at > s.len() - 8 {
            return Udid::from_few(s, at).high;
        }
        whole(s, at)
    }

    // It is the identifier whose bytes stand from a place on. The low half is looked at first: it mostly tells two targets apart.
    pub fn stands_at(self, s: &[u8], at: usize) -> bool
        ensures { result ≡ same_udid (udid_at s.now at) self }
    {
        if s.len() < 16 || at > s.len() - 16 {
            return Udid::from_few(s, at) == self;
        }
        whole(s, at + 8) == self.low && whole(s, at) == self.high
    }
}
