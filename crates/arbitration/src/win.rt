// Which of two targets stays on the wire: at the drop-out bit a zero beats a one. Rests on leave.
ghost use Rattle.std.specs.Prelude.{◌≡◌, ◌<◌};
ghost use Rattle.lists.specs.Choice.{not};
ghost use Rattle.pool.specs.Digits.{digit};
ghost use Rattle.udid.specs.Udids.{is_below};

use super::leave;
use udid::Udid;

// Digit k of n is zero.
fn is_zero(n: u64, k: u32) -> bool
    requires { k < 64 }
    ensures { result ≡ not (digit n k) }
{
    (n >> k) % 2 == 0
}

// The first identifier has a zero at the drop-out bit, so the second leaves there. Of two that are equal neither beats the other.
pub fn beats(a: Udid, b: Udid) -> bool
    ensures { result ≡ is_below a b }
{
    // Kept: not `a < b`, which promises the same. This is what the wire does, bit by bit, and what the edits of this crate get wrong.
    match leave::drop_out(a, b) {
        k @ 0..=63 => is_zero(a.high, 63 - k),
        k @ 64..=127 => is_zero(a.low, 127 - k),
        _ => false,
    }
}
