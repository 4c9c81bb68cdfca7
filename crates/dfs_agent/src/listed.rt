//! Which variables are in lists, found by searching the lists for each variable.

ghost use Rattle.std.specs.Prelude.{◌≡◌, true, ◌||◌, not, IfOk};
ghost use Rattle.std.specs.List.{concat, filter, find};
ghost use Rattle.dcop_base.specs.Table.{has};

use dcop_base::{NoMemory, VarId, VarList};
use std::alloc::Global;

/// Whether a variable is in a list. It compares with the whole list, so that a processor can
/// compare many variables at once.
fn is_among(vars: &[VarId], var: VarId) -> bool
    ensures { result ≡ has vars.now var }
{
    let mut found = false;
    for other in vars {
        found = found | (*other == var);
    }
    found
}

/// Whether a variable is in one of these lists.
#[tactic(auto, using(crate::proofs::VisitLaws::has_rest))]
fn is_among_any(lists: &[VarList], var: VarId) -> bool
    ensures { result ≡ has (concat lists.now) var }
{
    for vars in lists {
        if is_among(vars.as_slice(), var) {
            return true;
        }
    }
    false
}

/// Whether a variable is the last one of a path.
fn is_last(path: &[VarId], var: VarId) -> bool
    ensures { result ≡ true → has path.now var ≡ true }
{
    match path.last() {
        Some(last) => *last == var,
        None => false,
    }
}

/// Whether a variable is in a path. The parent is the last one, so that is tried first.
fn is_above(path: &[VarId], var: VarId) -> bool
    ensures { result ≡ has path.now var }
{
    is_last(path, var) || is_among(path, var)
}

/// Whether a variable is in the path or in a kept subtree. A neighbour is most often the parent or
/// a child, so the whole path is searched last.
fn is_visited(path: &[VarId], kept: &[VarList], var: VarId) -> bool
    ensures { result ≡ (has path.now var || has (concat kept.now) var) }
{
    is_last(path, var) || is_among_any(kept, var) || is_among(path, var)
}

/// The first of these variables that is neither in the path nor in a kept subtree.
pub(crate) fn first_outside(vars: &[VarId], path: &[VarId], kept: &[VarList]) -> Option<VarId>
    ensures { result ≡ find (λ u. not (has path.now u || has (concat kept.now) u)) vars.now }
{
    for var in vars {
        if !is_visited(path, kept, *var) {
            return Some(*var);
        }
    }
    None
}

/// Those of these variables that are not in the path, in their order.
pub(crate) fn outside(alloc: Global, vars: &[VarId], path: &[VarId]) -> Result<VarList, NoMemory>
    ensures { IfOk result (λ rest. rest ≡ filter (λ u. not (has path.now u)) vars.now) }
{
    let mut rest = VarList::new(alloc);
    for var in vars {
        if !is_above(path, *var) {
            rest.push(*var)?;
        }
    }
    Ok(rest)
}
