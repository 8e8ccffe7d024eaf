// The bytes of an identifier, highest byte first, at any place of a slice. What was written is read there: proofs/UdidLaws, put-back.
ghost use Rattle.std.specs.Prelude.{◌≡◌};
ghost use Rattle.udid.specs.Bytes.{udid_bytes, put_at};

use super::Udid;

impl Udid {
    // The 16 bytes from a place on. A slice that ends before them stays as it is.
    pub fn put_bytes(self, out: &mut [u8], at: usize)
        ensures { out.new ≡ put_at out.old at (udid_bytes self) }
    {
        if out.len() < 16 || at > out.len() - 16 {
            return;
        }
        out[at..at + 8].copy_from_slice(&self.high.to_be_bytes());
        out[at + 8..at + 16].copy_from_slice(&self.low.to_be_bytes());
    }
}
