// How many addresses are in use, the lowest that is free, and the next free one after another. Rests on bit; what the answers mean is
// in specs/FreeLaws and specs/NextFreeLaws, and what the next one is for in specs/PickLaws.
ghost use Rattle.std.specs.Prelude.{◌≡◌, ◌+◌, ◌-◌, ◌<◌};
ghost use Rattle.pool.specs.Free.{used, free_from, lowest_free};
ghost use Rattle.pool.specs.NextFree.{next_free};

use super::{Pool, bit};
use wire::address::Address;

impl Pool {
    // How many addresses are in use: the ones of both halves.
    pub fn used(self) -> u32
        ensures { result ≡ used self }
    {
        u64::count_ones(self.low) + u64::count_ones(self.high)
    }

    // The lowest address that is free, or none where all 128 are in use.
    pub fn lowest_free(self) -> Option<Address>
        ensures { result ≡ lowest_free self }
    {
        self.free_from(0)
    }

    // The first free address after the last one picked, going from 7Fh round to 00h. After 127, and after any number above, the lowest.
    pub fn next_free(self, last: u8) -> Option<Address>
        ensures { result ≡ next_free self last }
    {
        if last >= 127 {
            return self.lowest_free();
        }
        // Kept: no `or`, which would search from the front each time.
        match self.free_from(last + 1) {
            Some(a) => Some(a),
            None => self.free_from(0),
        }
    }

    // The lowest free address of those from n on.
    fn free_from(self, n: u8) -> Option<Address>
        ensures { result ≡ free_from self (128 - n) n }
    {
        if n < 64 {
            let k = bit::zero_from(self.low, n);
            if k < 64 {
                return Some(Address(k));
            }
            return self.high_free_from(0);
        }
        if n < 128 {
            return self.high_free_from(n - 64);
        }
        None
    }

    // The lowest free address of those from 64 + n on.
    fn high_free_from(self, n: u8) -> Option<Address>
        requires { n < 64 }
        ensures { result ≡ free_from self (64 - n) (64 + n) }
    {
        let k = bit::zero_from(self.high, n);
        if k < 64 {
            return Some(Address(64 + k));
        }
        None
    }
}
