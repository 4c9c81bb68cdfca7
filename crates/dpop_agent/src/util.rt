//! The table that an agent sends to its parent.

ghost use Rattle.std.specs.Prelude.{IfOk, IfSome};
ghost use Rattle.dpop_agent.specs.Keeping.{keeping};
ghost use Rattle.dpop_agent.specs.Joint.{IsOver, IsUtilWhereMay};
ghost use Rattle.dpop_agent.specs.Sound.{IsKeeper};

use crate::joint::joined_of;
use crate::separator::Over;
use dcop_base::{NoMemory, Private, Table};
use pseudotree::Place;
use std::alloc::Global;
use util_project::project;

/// The table that an agent with these tables sends to its parent: its joined table without the
/// agent's own variable; `None` exactly if it may not join. The joined table is not kept. `known`
/// has its variables if they are already known.
pub(crate) fn util_of(
    alloc: Global,
    own: &Private,
    place: &Place,
    kept: &[Option<Table>],
    known: Option<Over>,
) -> Result<Option<Table>, NoMemory>
    requires keeper { IsKeeper own.now place.now kept.now }
    requires known { IfSome known (IsOver (keeping own.now place.now kept.now)) }
    ensures { IfOk result (IsUtilWhereMay (keeping own.now place.now kept.now)) }
{
    let Some(joined) = joined_of(alloc, own, place, kept, known)? else {
        return Ok(None);
    };
    let made = project(alloc, &joined, own.me)?;
    Ok(Some(made))
}
