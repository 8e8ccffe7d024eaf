// The binary digits of a number of 64 bits. A place counts modulo 64, so there is a digit at every place. Rests on nothing.
ghost use Rattle.std.specs.Prelude.{◌≡◌, ◌%◌, ◌<◌};
ghost use Rattle.pool.specs.Digits.{digit, plus, flip, FirstZero};

// Digit k of n is one.
pub(crate) fn is_one(n: u64, k: u8) -> bool
    ensures { result ≡ digit n (k % 64) }
{
    (n >> (k % 64)) % 2 == 1
}

// n with digit k one.
pub(crate) fn with_one(n: u64, k: u8) -> u64
    ensures { result ≡ plus n (k % 64) }
{
    n | (1 << (k % 64))
}

// n with digit k turned over.
pub(crate) fn turned(n: u64, k: u8) -> u64
    ensures { result ≡ flip n (k % 64) }
{
    n ^ (1 << (k % 64))
}

// The first place from k on at which n has a zero, or 64.
// Kept: 64 for none. It is what trailing_zeros answers, and the definition FirstZero says it so.
pub(crate) fn zero_from(n: u64, k: u8) -> u8
    requires { k < 64 }
    ensures { FirstZero n k result }
{
    k + u64::trailing_zeros(!(n >> k)) as u8
}
