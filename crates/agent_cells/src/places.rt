//! The place of an end of a link among those of a cell.

ghost use Rattle.std.specs.Prelude.{◌≡◌, ◌<◌, ◌≤◌, ◌==◌, ℕ, map, length, slice_index_or};
ghost use Rattle.std.specs.List.{position};
ghost use Rattle.std.specs.List.Sorted.{IsStrictlyIncreasing};

use dcop_base::VarId;

/// The place of the end whose peer is `peer`, among ends in ascending order of their peers; found
/// by binary search.
#[tactic(auto, using(crate::proofs::PlaceLaws::place_found, crate::proofs::PlaceLaws::place_behind, crate::proofs::PlaceLaws::place_other))]
pub(crate) fn place_of<T>(ends: &[(VarId, T)], peer: VarId) -> Option<usize>
    requires ascend { IsStrictlyIncreasing (map (λ e. e.0) ends.now) }
    ensures { result ≡ position (λ e. e.0 == peer) ends.now }
{
    let place = first_from(ends, peer);
    if place == ends.len() {
        return None;
    }
    if ends[place].0 != peer {
        return None;
    }
    Some(place)
}

/// [`place_of`], which looks at place `near` first.
pub(crate) fn place_near<T>(ends: &[(VarId, T)], peer: VarId, near: usize) -> Option<usize>
    requires ascend { IsStrictlyIncreasing (map (λ e. e.0) ends.now) }
    ensures { result ≡ position (λ e. e.0 == peer) ends.now }
{
    if near < ends.len() && ends[near].0 == peer {
        return Some(near);
    }
    place_of(ends, peer)
}

/// How many ends come before the first one whose peer is not below `peer`.
#[tactic(auto, using(crate::proofs::PlaceLaws::halving_starts, crate::proofs::PlaceLaws::halving_up, crate::proofs::PlaceLaws::halving_down))]
fn first_from<T>(ends: &[(VarId, T)], peer: VarId) -> usize
    requires ascend { IsStrictlyIncreasing (map (λ e. e.0) ends.now) }
    ensures most { result ≤ length ends.now }
    ensures below { (k : ℕ) (d : _) → k < result → (slice_index_or ends.now k d).0 < peer }
    ensures above { (k : ℕ) (d : _) → result ≤ k → k < length ends.now → peer ≤ (slice_index_or ends.now k d).0 }
{
    let mut low = 0;
    let mut high = ends.len();
    while low < high {
        let middle = low + (high - low) / 2;
        if ends[middle].0 < peer {
            low = middle + 1;
        } else {
            high = middle;
        }
    }
    low
}
