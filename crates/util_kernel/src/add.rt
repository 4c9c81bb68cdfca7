//! Sums, element by element.

ghost use Rattle.std.specs.Prelude.{◌≡◌, ◌+◌, ◌≤◌, List, length};
ghost use Rattle.std.specs.List.{All};
ghost use Rattle.util_kernel.specs.Lanes.{sums};
ghost use Rattle.std.specs.Simd.Lanes.{chunk, put_chunk, zip2};
ghost use Rattle.dcop_base.specs.Limits.{amount_limit};

use crate::cap::{cap_all, may_exceed};
use dcop_base::CAP;
use std::simd::prelude::u64x4;

/// The number of amounts in a block.
const LANES: usize = 4;

/// Adds each amount of `from` to the one at the same place of `into`. A sum above [`CAP`] becomes
/// [`CAP`].
pub fn add_lanes(into: &mut [u64], from: &[u64])
    requires equal { length into.old ≡ length from.now }
    requires into { All (λ n. n ≤ amount_limit) into.old }
    requires from { All (λ n. n ≤ amount_limit) from.now }
    ensures { into.new ≡ sums into.old from.now }
{
    let mut bits = u64x4::splat(0);
    let mut at = 0;
    while at + LANES <= into.len() {
        bits |= add_block(into, from, at);
        at += LANES;
    }
    if may_exceed(bits) {
        cap_all(into);
    }
    while at < into.len() {
        into[at] = (into[at] + from[at]).min(CAP);
        at += 1;
    }
}

/// Adds the block of four that starts at `at`, without a cap, and returns the sums.
fn add_block(into: &mut [u64], from: &[u64], at: usize) -> u64x4
    requires equal { length into.old ≡ length from.now }
    requires room { at + LANES ≤ length into.old }
    requires into { All (λ n. n ≤ amount_limit) (chunk at LANES into.old) }
    requires from { All (λ n. n ≤ amount_limit) (chunk at LANES from.now) }
    ensures sums { result ≡ zip2 (λ a b. a + b) (chunk at LANES into.old) (chunk at LANES from.now) }
    ensures stored { into.new ≡ put_chunk at into.old result }
{
    let sum = u64x4::from_slice(&into[at..]) + u64x4::from_slice(&from[at..]);
    sum.copy_to_slice(&mut into[at..]);
    sum
}
