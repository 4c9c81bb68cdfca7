//! Laws of tables that are made and kept. Each is the contract of a call that does nothing: code
//! that needs the law calls it.

ghost use Rattle.edit_session.specs.MadeLaws.{MadeTablesAreOptima, LowestPicksAreFirst};
ghost use Rattle.edit_session.specs.MadeLaws.{ChildrenMayBeJoined, OneMoreIsHeld, PicksReadSeparators};
ghost use Rattle.edit_session.specs.Edits.{EditsLeaveOthers};

/// If a list has the DPOP tables of a variable and of all its descendants, the table that its agent
/// sends is that of its subtree optima.
pub fn made_tables_are_optima()
    ensures { MadeTablesAreOptima }
{}

/// If a list has the DPOP tables of all variables, and each variable has the lowest value with the
/// least joined cost at the values of its separator, the values are the first optimum of the tree.
pub fn lowest_picks_are_first()
    ensures { LowestPicksAreFirst }
{}

/// If a list has the DPOP tables of the descendants of a variable, the value that its agent picks
/// depends on the values of its separator alone.
pub fn picks_read_separators()
    ensures { PicksReadSeparators }
{}

/// If a list has the DPOP tables of the descendants of a variable, and the pseudotree is narrow and
/// linked, then the tables of its agent may be made: the premise of `dpop_agent::remake` holds. The
/// joined table has as many cells as the tree says.
pub fn children_may_be_joined()
    ensures { ChildrenMayBeJoined }
{}

/// If a list has the DPOP tables of the descendants of a variable, and the tables that are made for
/// this variable are put at its place, then the list has the DPOP tables of the variable too. If
/// the list had the tables of some variable and of its descendants before, it still has them.
pub fn one_more_is_held()
    ensures { OneMoreIsHeld }
{}

/// When a table of a problem gets other cells, its graph stays, and so do its depth-first tree and
/// the widths of all trees. A list that had the DPOP tables of a variable that is not on the way
/// from the table's deepest variable to the root still has them.
pub fn edits_leave_others()
    ensures { EditsLeaveOthers }
{}
