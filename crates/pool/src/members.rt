// Which addresses are in use, and the pool with one more, with one fewer, or with those of two pools. A number above 127 is no
// address: no pool has it, and adding it or taking it out changes nothing. Rests on bit; what each pool has is in specs/MemberLaws.
ghost use Rattle.std.specs.Prelude.{◌≡◌};
ghost use Rattle.pool.specs.Pools.{member, with_address, without_address, union_of};

use super::{Pool, bit};
use wire::address::Address;

impl Pool {
    // The address is in use.
    pub fn has(self, a: Address) -> bool
        ensures { result ≡ member self a.0 }
    {
        let n = a.0;
        if n < 64 {
            return bit::is_one(self.low, n);
        }
        if n < 128 {
            return bit::is_one(self.high, n);
        }
        false
    }

    // The pool with the address in use.
    pub fn with(self, a: Address) -> Pool
        ensures { result ≡ with_address self a.0 }
    {
        let n = a.0;
        if n < 64 {
            return Pool {
                low: bit::with_one(self.low, n),
                high: self.high,
            };
        }
        if n < 128 {
            return Pool {
                low: self.low,
                high: bit::with_one(self.high, n),
            };
        }
        self
    }

    // The pool with the address free.
    pub fn without(self, a: Address) -> Pool
        ensures { result ≡ without_address self a.0 }
    {
        if !self.has(a) {
            return self;
        }
        let n = a.0;
        if n < 64 {
            Pool {
                low: bit::turned(self.low, n),
                high: self.high,
            }
        } else {
            Pool {
                low: self.low,
                high: bit::turned(self.high, n),
            }
        }
    }

    // The addresses in use in either.
    pub fn union(self, other: Pool) -> Pool
        ensures { result ≡ union_of self other }
    {
        Pool {
            low: self.low | other.low,
            high: self.high | other.high,
        }
    }
}
