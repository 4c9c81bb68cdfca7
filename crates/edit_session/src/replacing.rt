//! Replacing the cells of a table in all parts of a session.

ghost use Rattle.std.specs.Prelude.{◌≡◌, None, IfOk, IfErr, OnOk, OnErr, length};
ghost use Rattle.pseudotree.specs.Tree.{IsTree};
ghost use Rattle.dcop_optimum.specs.Goal.{top_of};
ghost use Rattle.edit_session.specs.Faults.{IsEditFaultOf, IsReplacement, sum_fault};
ghost use Rattle.edit_session.specs.Loops.{HasReplaced};
ghost use Rattle.edit_session.specs.Session.{turned_for};

use crate::edit::{put_in_file, put_in_turned, sum_with};
use crate::fault::SetFault;
use crate::mark::mark_way_of;
use dcop_base::{CellList, Problem, problem_is_whole};
use problem_text::ProblemFile;
use pseudotree::Tree;
use std::alloc::Global;

/// Replaces the cells of a table in a file and in the turned problem, if there is one, and marks
/// the agents on the path from the table's deepest variable to the root. Returns the new sum of the
/// greatest cells.
pub(crate) fn replace_cells(
    alloc: Global,
    file: &mut ProblemFile,
    turned: &mut Option<Problem>,
    top: u64,
    tree: &Tree,
    touched: &mut Vec<bool>,
    table: usize,
    cells: Vec<u64>,
) -> Result<u64, SetFault>
    requires cells { IsReplacement file.old.problem.tables table cells.items }
    requires turned { turned.old ≡ turned_for file.old.goal file.old.problem }
    requires top { top ≡ top_of file.old.problem }
    requires tree { IsTree tree.now.paths }
    requires sized { length tree.now.paths ≡ length file.old.problem.sizes }
    requires marked { length touched.old.items ≡ length tree.now.paths }
    ensures fits { OnOk result (sum_fault file.old.problem table cells.items ≡ None) }
    ensures done { IfOk result (HasReplaced tree.now.paths table cells.items file.old file.new
        turned.old turned.new touched.old.items touched.new.items) }
    ensures refused { IfErr result (IsEditFaultOf (sum_fault file.old.problem table cells.items)) }
    ensures file { OnErr result (file.new ≡ file.old) }
    ensures problem { OnErr result (turned.new ≡ turned.old) }
    ensures marks { OnErr result (touched.new.items ≡ touched.old.items) }
{
    let problem = &file.problem;
    problem_is_whole(problem);
    let Some(top) = sum_with(problem, top, table, cells.as_slice()) else {
        return Err(SetFault::SumTooLarge);
    };
    put_in_turned(alloc, turned, table, cells.as_slice())?;
    mark_way_of(touched, tree, problem, table);
    put_in_file(alloc, file, table, CellList::from_vec(cells));
    Ok(top)
}
