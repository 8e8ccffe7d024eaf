// Sets of addresses. A number above 127 is no address: no set has it, and adding it or taking it out changes nothing.
ghost use Rattle.std.specs.Prelude.{◌≡◌};
ghost use Rattle.pool.specs.Pools.{member, with_address, without_address, union_of};
ghost use Rattle.pool.specs.Free.{used, lowest_free};
ghost use Rattle.pool.specs.NextFree.{next_free};
ghost use Rattle.pool.specs.Start.{starting_pool, barred_pool};
ghost use Rattle.c_codec.specs.Numbers.{bit};
ghost use Rattle.c_arp.specs.Parts.{pool_in, told_pool, free_number};

use c_arp::parts::HbPool;
use pool::Pool;
use wire::address::Address;

// 1 where the set has the address.
#[unsafe(no_mangle)]
pub extern "C" fn hb_pool_has(pool: HbPool, address: u8) -> u8
    ensures { result ≡ bit (member (pool_in pool) address) }
{
    u8::from(Pool::from(pool).has(Address(address)))
}

// The set and the address.
#[unsafe(no_mangle)]
pub extern "C" fn hb_pool_with(pool: HbPool, address: u8) -> HbPool
    ensures { result ≡ told_pool (with_address (pool_in pool) address) }
{
    Pool::from(pool).with(Address(address)).into()
}

// The set without the address.
#[unsafe(no_mangle)]
pub extern "C" fn hb_pool_without(pool: HbPool, address: u8) -> HbPool
    ensures { result ≡ told_pool (without_address (pool_in pool) address) }
{
    Pool::from(pool).without(Address(address)).into()
}

// The addresses of either set.
#[unsafe(no_mangle)]
pub extern "C" fn hb_pool_union(one: HbPool, other: HbPool) -> HbPool
    ensures { result ≡ told_pool (union_of (pool_in one) (pool_in other)) }
{
    Pool::from(one).union(other.into()).into()
}

// The starting pool: the listed addresses and these.
#[unsafe(no_mangle)]
pub extern "C" fn hb_pool_starting(occupied: HbPool) -> HbPool
    ensures { result ≡ told_pool (starting_pool (pool_in occupied)) }
{
    Pool::starting(occupied.into()).into()
}

// The barred addresses: the reserved ones and these.
#[unsafe(no_mangle)]
pub extern "C" fn hb_pool_barred(occupied: HbPool) -> HbPool
    ensures { result ≡ told_pool (barred_pool (pool_in occupied)) }
{
    Pool::barred(occupied.into()).into()
}

// How many addresses the set has.
#[unsafe(no_mangle)]
pub extern "C" fn hb_pool_used(pool: HbPool) -> u32
    ensures { result ≡ used (pool_in pool) }
{
    Pool::from(pool).used()
}

// Kept: C has no Option, and headboarded.h promises 128, which is no address.
const NONE_FREE: u8 = 128;

// The lowest address that the set does not have, or 128.
#[unsafe(no_mangle)]
pub extern "C" fn hb_pool_lowest_free(pool: HbPool) -> u8
    ensures { result ≡ free_number (lowest_free (pool_in pool)) }
{
    Pool::from(pool).lowest_free().map_or(NONE_FREE, |a| a.0)
}

// The first address after the last one, going from 7Fh round to 00h, that the set does not have, or 128.
#[unsafe(no_mangle)]
pub extern "C" fn hb_pool_next_free(pool: HbPool, last: u8) -> u8
    ensures { result ≡ free_number (next_free (pool_in pool) last) }
{
    Pool::from(pool).next_free(last).map_or(NONE_FREE, |a| a.0)
}
