//! The lesser of two, element by element.

ghost use Rattle.std.specs.Prelude.{◌≡◌, ◌+◌, ◌≤◌, length};
ghost use Rattle.util_kernel.specs.Lanes.{leasts};
ghost use Rattle.std.specs.Simd.Lanes.{chunk, put_chunk};

use std::simd::prelude::u64x8;

/// The number of amounts in a block.
const LANES: usize = 8;

/// Replaces each amount of `into` by the one at the same place of `from` if that is less.
pub fn least_lanes(into: &mut [u64], from: &[u64])
    requires { length into.old ≡ length from.now }
    ensures { into.new ≡ leasts into.old from.now }
{
    let mut at = 0;
    while into.len() - at >= LANES {
        least_block(into, from, at);
        at += LANES;
    }
    while at < into.len() {
        into[at] = into[at].min(from[at]);
        at += 1;
    }
}

/// Takes the lesser of each two amounts in the block of eight that starts at `at`.
fn least_block(into: &mut [u64], from: &[u64], at: usize)
    requires equal { length into.old ≡ length from.now }
    requires room { at + LANES ≤ length into.old }
    ensures { into.new ≡ put_chunk at into.old
        (leasts (chunk at LANES into.old) (chunk at LANES from.now)) }
{
    let least = u64x8::from_slice(&into[at..]).simd_min(u64x8::from_slice(&from[at..]));
    least.copy_to_slice(&mut into[at..]);
}
