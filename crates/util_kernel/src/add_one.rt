//! Sums with one amount.

ghost use Rattle.std.specs.Prelude.{◌≡◌, ◌+◌, ◌≤◌, length, replicate};
ghost use Rattle.std.specs.List.{All};
ghost use Rattle.util_kernel.specs.Lanes.{raised};
ghost use Rattle.std.specs.Simd.Lanes.{chunk, put_chunk, zip2};
ghost use Rattle.dcop_base.specs.Limits.{amount_limit};

use crate::cap::{cap_all, may_exceed};
use dcop_base::CAP;
use std::simd::prelude::u64x4;

/// The number of amounts in a block.
const LANES: usize = 4;

/// Adds `cell` to each amount of `into`. A sum above [`CAP`] becomes [`CAP`].
pub fn add_one_lanes(into: &mut [u64], cell: u64)
    requires into { All (λ n. n ≤ amount_limit) into.old }
    requires cell { cell ≤ amount_limit }
    ensures { into.new ≡ raised into.old cell }
{
    let mut bits = u64x4::splat(0);
    let mut at = 0;
    while at + LANES <= into.len() {
        bits |= add_one_block(into, cell, at);
        at += LANES;
    }
    if may_exceed(bits) {
        cap_all(into);
    }
    while at < into.len() {
        into[at] = (into[at] + cell).min(CAP);
        at += 1;
    }
}

/// Adds one amount to the block of four that starts at `at`, without a cap, and returns the sums.
fn add_one_block(into: &mut [u64], cell: u64, at: usize) -> u64x4
    requires room { at + LANES ≤ length into.old }
    requires into { All (λ n. n ≤ amount_limit) (chunk at LANES into.old) }
    requires cell { cell ≤ amount_limit }
    ensures sums { result ≡ zip2 (λ a b. a + b) (chunk at LANES into.old) (replicate LANES cell) }
    ensures stored { into.new ≡ put_chunk at into.old result }
{
    let sum = u64x4::from_slice(&into[at..]) + u64x4::splat(cell);
    sum.copy_to_slice(&mut into[at..]);
    sum
}
