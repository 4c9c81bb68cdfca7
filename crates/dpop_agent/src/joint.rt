//! Joined tables.

ghost use Rattle.std.specs.Prelude.{◌≡◌, ◌==◌, ◌||◌, ◌≤◌, [], true, false, length, IfOk, IfSome};
ghost use Rattle.std.specs.List.{All, list_all, filter, flat_map};
ghost use Rattle.dcop_base.specs.Table.{has, has_repeat};
ghost use Rattle.protocol_steps.specs.Dpop.{there};
ghost use Rattle.util_join.specs.Join.{LiesIn};
ghost use Rattle.dpop_agent.specs.Keeping.{AreOffPath, keeping};
ghost use Rattle.dpop_agent.specs.Joint.{HasGained, IsOver, IsZeroOver, IsZeroWhereNarrow, IsJointWhereMay};
ghost use Rattle.dpop_agent.specs.Sound.{IsKeeper};

use crate::ancestors::are_above;
use crate::kept::are_all_there;
use crate::separator::{Over, variables_with};
use dcop_base::{NoMemory, Private, Table, VarId};
use pseudotree::Place;
use std::alloc::Global;
use util_join::{JoinFault, Joined};

/// Adds the tables that name only the agent and variables of its path.
pub(crate) fn add_own(
    joined: &mut Joined,
    tables: &[Table],
    me: VarId,
    path: &[VarId],
    lower: &[VarId],
)
    requires apart { AreOffPath lower.now path.now }
    requires lie { All (λ t. list_all (λ u. u == me || has path.now u) t.scope ≡ true
        → LiesIn joined.old.scope joined.old.sizes t) tables.now }
    ensures { HasGained (filter (λ t. list_all (λ u. u == me || has path.now u) t.scope) tables.now)
        joined.old joined.new }
{
    for table in tables {
        if are_above(table.scope.as_slice(), me, path, lower) {
            joined.add(table);
        }
    }
}

/// Adds the kept tables.
fn add_kept(joined: &mut Joined, kept: &[Option<Table>])
    requires { All (LiesIn joined.old.scope joined.old.sizes) (flat_map there kept.now) }
    ensures { HasGained (flat_map there kept.now) joined.old joined.new }
{
    for entry in kept {
        if let Some(table) = entry {
            joined.add(table);
        }
    }
}

/// A joined table of zeros over these variables; `None` exactly if it would be too wide.
pub(crate) fn zeros_over(alloc: Global, over: Over) -> Result<Option<Joined>, NoMemory>
    requires distinct { has_repeat over.vars ≡ false }
    requires sized { length over.sizes ≡ length over.vars }
    requires positive { All (λ s. 1 ≤ s) over.sizes }
    ensures { IfOk result (IsZeroOver over.vars over.sizes) }
{
    match Joined::new(alloc, over.vars, over.sizes) {
        Ok(joined) => Ok(Some(joined)),
        Err(JoinFault::TooWide { .. }) => Ok(None),
        Err(JoinFault::NoMemory) => Err(NoMemory),
    }
}

/// The variables of the joined table: `known` if they are already known, and otherwise found here.
fn known_or_found(
    alloc: Global,
    own: &Private,
    place: &Place,
    kept: &[Option<Table>],
    known: Option<Over>,
) -> Result<Over, NoMemory>
    requires keeper { IsKeeper own.now place.now kept.now }
    requires known { IfSome known (IsOver (keeping own.now place.now kept.now)) }
    ensures { IfOk result (IsOver (keeping own.now place.now kept.now)) }
{
    match known {
        Some(over) => Ok(over),
        None => variables_with(alloc, own, place, kept, &[]),
    }
}

/// The joined table of zeros from which an agent starts; `None` exactly if it would be too wide.
fn zeros(
    alloc: Global,
    own: &Private,
    place: &Place,
    kept: &[Option<Table>],
    known: Option<Over>,
) -> Result<Option<Joined>, NoMemory>
    requires keeper { IsKeeper own.now place.now kept.now }
    requires known { IfSome known (IsOver (keeping own.now place.now kept.now)) }
    ensures { IfOk result (IsZeroWhereNarrow (keeping own.now place.now kept.now)) }
{
    let over = known_or_found(alloc, own, place, kept, known)?;
    zeros_over(alloc, over)
}

/// The sum of the agent's own tables and all its children's tables; `None` exactly if not all of
/// these are kept or the joined table would be too wide. `known` has its variables if they are
/// already known.
pub(crate) fn joined_of(
    alloc: Global,
    own: &Private,
    place: &Place,
    kept: &[Option<Table>],
    known: Option<Over>,
) -> Result<Option<Table>, NoMemory>
    requires keeper { IsKeeper own.now place.now kept.now }
    requires known { IfSome known (IsOver (keeping own.now place.now kept.now)) }
    ensures { IfOk result (IsJointWhereMay (keeping own.now place.now kept.now)) }
{
    if !are_all_there(kept) {
        return Ok(None);
    }
    let Some(mut joined) = zeros(alloc, own, place, kept, known)? else {
        return Ok(None);
    };
    add_own(
        &mut joined,
        own.tables.as_slice(),
        own.me,
        place.path.as_slice(),
        place.lower.as_slice(),
    );
    add_kept(&mut joined, kept);
    Ok(Some(joined.table()))
}
