// The sets to begin with: none; the reserved addresses and the listed ones, and each with the occupied ones. Rests on members;
// proofs/StartLaws holds them against the lists of addresses.
ghost use Rattle.std.specs.Prelude.{◌≡◌};
ghost use Rattle.pool.specs.Start.{empty_pool, reserved_pool, listed_pool, starting_pool, barred_pool};

use super::Pool;

impl Pool {
    // No address in use.
    pub fn empty() -> Pool
        ensures { result ≡ empty_pool }
    {
        Pool { low: 0, high: 0 }
    }

    // The 21 on which no target may stand: 00h to 08h, 0Ch, 28h and 37h, then 61h and 78h to 7Fh.
    pub fn reserved() -> Pool
        ensures { result ≡ reserved_pool }
    {
        Pool {
            low: 0x0080_0100_0000_11FF,
            high: 0xFF00_0002_0000_0000,
        }
    }

    // The 35 of Table 17: those, and 09h to 0Bh, 2Ch and 2Dh, then 40h to 44h and 48h to 4Bh.
    pub fn listed() -> Pool
        ensures { result ≡ listed_pool }
    {
        Pool {
            low: 0x0080_3100_0000_1FFF,
            high: 0xFF00_0002_0000_0F1F,
        }
    }

    // The starting pool: the listed and the occupied addresses together. Nothing is picked from it.
    pub fn starting(occupied: Pool) -> Pool
        ensures { result ≡ starting_pool occupied }
    {
        let listed = Pool::listed();
        listed.union(occupied)
    }

    // The barred addresses: the reserved and the occupied ones together. Not even a fixed target may stand there.
    pub fn barred(occupied: Pool) -> Pool
        ensures { result ≡ barred_pool occupied }
    {
        let reserved = Pool::reserved();
        reserved.union(occupied)
    }
}
