//! Messages from a child, and from and to the parent.

ghost use Rattle.std.specs.Prelude.{◌≡◌, false, ◌<◌, ◌≤◌, [], ◌∷◌, ◌++◌, ◌&&◌, ◌==◌, length, map, nat_eq, nat_le, Option, IfOk, slice_get};
ghost use Rattle.std.specs.List.{filter, list_all, zip};
ghost use Rattle.std.specs.Cmp.Lexicographic.{pointwise};
ghost use Rattle.dcop_base.specs.Limits.{joined_limit};
ghost use Rattle.dcop_base.specs.Table.{has, has_repeat, product};
ghost use Rattle.adopt_context.specs.Context.{is_value, value_in};
ghost use Rattle.protocol_steps.specs.declared.message.Message.TheVariants.{Util};
ghost use Rattle.protocol_steps.specs.Agent.{last_of};
ghost use Rattle.protocol_steps.specs.Dpop.{joined_cells_with, kept_scopes, size_of};
ghost use Rattle.protocol_steps.specs.Placing.{IsPathOf};
ghost use Rattle.protocol_steps.specs.Ranges.{AreVariables, AreCells};
ghost use Rattle.protocol_steps.specs.DpopStep.{is_below_size, is_open, takes_util};
ghost use Rattle.dpop_agent.specs.Keeping.{keeping};
ghost use Rattle.dpop_agent.specs.Sound.{IsKeeper};
ghost use Rattle.dpop_agent.specs.Deed.{IsTableTaken, parcels_up};

use crate::ancestors::{size_from_the_end, stand_in_order};
use crate::separator::sizes_of;
use cost_table::cells_of;
use dcop_base::{CellList, NoMemory, Private, Table, Val, VarId, VarList};
use protocol_steps::{Message, Parcel};
use pseudotree::{MAX_JOINED_CELLS, Place};
use std::alloc::Global;

/// These parcels, and UTIL for the parent, with the table that was made. The root, whose path is
/// empty, sends none.
pub(crate) fn util_for(
    alloc: Global,
    path: &[VarId],
    made: &Table,
    parcels: Vec<Parcel>,
) -> Result<Vec<Parcel>, NoMemory>
    requires scope { AreVariables made.now.scope }
    requires cells { AreCells made.now.cells }
    ensures { IfOk result (λ ps. ps.items
        ≡ parcels.items ++ parcels_up (last_of path.now) made.now) }
{
    let Some(parent) = path.last() else {
        return Ok(parcels);
    };
    let mut sent = parcels;
    sent.push(Parcel {
        to: *parent,
        message: Message::Util {
            scope: VarList::from_slice(alloc, made.scope.as_slice())?,
            cells: made.cells.clone()?,
        },
    })?;
    Ok(sent)
}

/// Whether a variable is the agent's parent: the last one of its path.
pub(crate) fn is_parent(path: &[VarId], var: VarId) -> bool
    ensures { result ≡ is_value (last_of path.now) var }
{
    match path.last() {
        Some(parent) => *parent == var,
        None => false,
    }
}

/// Whether a value is below the size of a variable of the path; true for any other variable.
fn is_sized(place: &Place, var: VarId, value: Val) -> bool
    requires apart { has_repeat place.now.path ≡ false }
    requires sized { length place.now.path_sizes ≡ length place.now.path }
    ensures { result ≡ is_below_size
        (value_in (zip place.now.path place.now.path_sizes) var) value }
{
    match size_from_the_end(place.path.as_slice(), place.path_sizes.as_slice(), var) {
        Some(size) => value.0 < size,
        None => true,
    }
}

/// Whether each pair gives a variable of the path a value below its size.
pub(crate) fn are_sized(place: &Place, pairs: &[(VarId, Val)]) -> bool
    requires apart { has_repeat place.now.path ≡ false }
    requires sized { length place.now.path_sizes ≡ length place.now.path }
    ensures { result ≡ list_all (λ p. is_below_size
        (value_in (zip place.now.path place.now.path_sizes) p.0) p.1) pairs.now }
{
    pairs.iter().all(|pair| is_sized(place, pair.0, pair.1))
}

/// Whether there is a place for a child's table, and it is empty.
fn is_open(kept: &[Option<Table>], child: usize) -> bool
    ensures { result ≡ is_open (slice_get kept.now child) }
{
    match kept.get(child) {
        Some(entry) => entry.is_none(),
        None => false,
    }
}

/// Whether a scope consists of variables of the path, from the root down, and then the agent.
fn is_in_order(me: VarId, path: &[VarId], scope: &[VarId]) -> bool
    requires apart { has_repeat path.now ≡ false }
    requires without { has path.now me ≡ false }
    ensures { result
        ≡ pointwise nat_eq scope.now (filter (has scope.now) path.now ++ (me ∷ [])) }
{
    match scope.split_last() {
        Some((last, above)) => *last == me && stand_in_order(path, above),
        None => false,
    }
}

/// Whether a table of these sizes has `count` cells.
fn are_cells_of(sizes: &[u16], count: usize) -> bool
    requires { count ≤ joined_limit }
    ensures { result ≡ (count == product sizes.now) }
{
    match cells_of(sizes, MAX_JOINED_CELLS) {
        Some(cells) => count as u64 == cells,
        None => false,
    }
}

/// Whether a joined table of these sizes stays within its limit.
fn is_narrow(sizes: &[u16]) -> bool
    ensures { result ≡ nat_le (product sizes.now) joined_limit }
{
    cells_of(sizes, MAX_JOINED_CELLS).is_some()
}

/// Whether the child at this place may send a table with this scope, these sizes and these cells.
/// `over` has the sizes of the joined table with this scope among the kept ones.
fn takes(
    own: &Private,
    place: &Place,
    kept: &[Option<Table>],
    child: usize,
    scope: &[VarId],
    sizes: &[u16],
    cells: &[u64],
    over: &[u16],
) -> bool
    requires path { IsPathOf own.now.me place.now.path place.now.path_sizes }
    requires sizes { sizes.now ≡ map (size_of (keeping own.now place.now [])) scope.now }
    requires few { length cells.now ≤ joined_limit }
    requires over { product over.now ≡ joined_cells_with (keeping own.now place.now kept.now)
        (scope.now ∷ kept_scopes (keeping own.now place.now kept.now)) }
    ensures { result
        ≡ takes_util (keeping own.now place.now kept.now) child scope.now cells.now }
{
    if !is_open(kept, child) {
        return false;
    }
    if !is_in_order(own.me, place.path.as_slice(), scope) {
        return false;
    }
    if !are_cells_of(sizes, cells.len()) {
        return false;
    }
    is_narrow(over)
}

/// The table that a child sends with this scope and these cells, if it is taken. `over` has the
/// sizes of the joined table with this scope among the kept ones.
pub(crate) fn table_of(
    alloc: Global,
    own: &Private,
    place: &Place,
    kept: &[Option<Table>],
    child: usize,
    scope: &[VarId],
    cells: &CellList,
    over: &[u16],
) -> Result<Option<Table>, NoMemory>
    requires keeper { IsKeeper own.now place.now kept.now }
    requires range { AreCells cells.now }
    requires over { product over.now ≡ joined_cells_with (keeping own.now place.now kept.now)
        (scope.now ∷ kept_scopes (keeping own.now place.now kept.now)) }
    ensures { IfOk result (IsTableTaken (keeping own.now place.now kept.now) child scope.now cells.now) }
{
    let sizes = sizes_of(alloc, own, place, scope)?;
    if !takes(
        own,
        place,
        kept,
        child,
        scope,
        sizes.as_slice(),
        cells.as_slice(),
        over,
    ) {
        return Ok(None);
    }
    Ok(Some(Table {
        scope: VarList::from_slice(alloc, scope)?,
        sizes,
        cells: cells.clone()?,
    }))
}
