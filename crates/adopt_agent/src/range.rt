//! What an agent accepts: messages from its parent, and contexts over its path.

ghost use Rattle.std.specs.Prelude.{◌≡◌, ◌&&◌, false, length};
ghost use Rattle.std.specs.List.{list_all, zip};
ghost use Rattle.dcop_base.specs.Table.{has, has_repeat};
ghost use Rattle.adopt_context.specs.Context.{is_value, value_in};
ghost use Rattle.protocol_steps.specs.Agent.{last_of};
ghost use Rattle.protocol_steps.specs.AdoptRange.{is_within};
ghost use Rattle.protocol_steps.specs.Knowledge.{IsKnowledge};
ghost use Rattle.protocol_steps.specs.Placing.{IsPlaceFor};

use crate::order::{is_among, place_in};
use dcop_base::{Private, Val, VarId};
use pseudotree::Place;

/// The size of a variable of a path; `None` exactly if it is not in the path. The search starts at
/// the end, where the nearest ancestors are, because most messages name these.
fn size_above(path: &[VarId], sizes: &[u16], var: VarId) -> Option<u16>
    requires sized { length sizes.now ≡ length path.now }
    requires apart { has_repeat path.now ≡ false }
    ensures { result ≡ value_in (zip path.now sizes.now) var }
{
    for k in (0..path.len()).rev() {
        if path[k] == var {
            return Some(sizes[k]);
        }
    }
    None
}

/// Whether a variable is in the path and the value is below its size.
fn is_in_range(place: &Place, var: VarId, value: Val) -> bool
    requires sized { length place.now.path_sizes ≡ length place.now.path }
    requires apart { has_repeat place.now.path ≡ false }
    ensures { result ≡ is_within (value_in (zip place.now.path place.now.path_sizes) var) value }
{
    match size_above(place.path.as_slice(), place.path_sizes.as_slice(), var) {
        Some(size) => value.0 < size,
        None => false,
    }
}

/// Whether a variable is a neighbour in the path and the value is below its size. A neighbour is in
/// the path exactly if it is not a lower one.
pub(crate) fn is_near_above(own: &Private, place: &Place, var: VarId, value: Val) -> bool
    requires knowledge { IsKnowledge own.now }
    requires placed { IsPlaceFor own.now place.now }
    ensures { result ≡ (has own.now.neighbours var
        && is_within (value_in (zip place.now.path place.now.path_sizes) var) value) }
{
    let Some(near) = place_in(own.neighbours.as_slice(), var) else {
        return false;
    };
    if is_among(place.lower.as_slice(), var) {
        return false;
    }
    value.0 < own.neighbour_sizes.as_slice()[near]
}

/// Whether these pairs name only variables of the path, with values below their sizes.
pub(crate) fn fit(place: &Place, pairs: &[(VarId, Val)]) -> bool
    requires sized { length place.now.path_sizes ≡ length place.now.path }
    requires apart { has_repeat place.now.path ≡ false }
    ensures { result ≡ list_all (λ p. is_within
        (value_in (zip place.now.path place.now.path_sizes) p.0) p.1) pairs.now }
{
    pairs.iter().all(|pair| is_in_range(place, pair.0, pair.1))
}

/// Whether a variable is the agent's parent.
pub(crate) fn is_parent(path: &[VarId], var: VarId) -> bool
    ensures { result ≡ is_value (last_of path.now) var }
{
    match path.last() {
        Some(parent) => *parent == var,
        None => false,
    }
}
