//! The cap of sums.

ghost use Rattle.std.specs.Prelude.{◌≡◌, ◌≤◌, false, map, min};
ghost use Rattle.std.specs.List.{All};
ghost use Rattle.dcop_base.specs.Limits.{amount_limit};

use dcop_base::CAP;
use std::simd::prelude::u64x4;

/// Whether an amount above [`CAP`] is possible. `bits` holds the bits of all amounts, joined by
/// "or". If the result is `false`, no amount whose bits are among them is above [`CAP`].
pub(crate) fn may_exceed(bits: u64x4) -> bool
    ensures { result ≡ false → All (λ n. n ≤ amount_limit) bits }
{
    bits.reduce_or() > CAP
}

/// Lowers each amount above [`CAP`] to [`CAP`].
pub(crate) fn cap_all(amounts: &mut [u64])
    ensures { amounts.new ≡ map (λ n. min n amount_limit) amounts.old }
{
    for at in 0..amounts.len() {
        amounts[at] = amounts[at].min(CAP);
    }
}
