//! The answer of a session.

ghost use Rattle.std.specs.Prelude.{◌≡◌, ◌+◌, ◌≤◌, false, IfOk, OnOk, OnErr, length, replicate};
ghost use Rattle.dcop_base.specs.Problem.{IsAssignment, cost};
ghost use Rattle.pseudotree.specs.DepthFirst.{dfs};
ghost use Rattle.edit_session.specs.Held.{AreAllHeld};
ghost use Rattle.minimised_problem.specs.Goal.{problem_solved};
ghost use Rattle.edit_session.specs.Loops.{IsEditGround, StayHeld, AreOthersHeld};
ghost use Rattle.edit_session.specs.State.{IsAnswerNow, touched_cells};

use crate::mark::{count_of, unmark};
use crate::pick::pick_all;
use crate::remaking::remake_touched;
use dcop_base::{NoMemory, Problem, Val, ValList, cost_of, problem_is_whole};
use dpop_agent::{KeptList, Steps};
use problem_text::{Edited, ProblemFile};
use pseudotree::Tree;
use std::alloc::Global;
use std::sync::ledger::Ledger;

/// The optimum of a problem that is solved for a file, and how many agents are touched. The tables
/// of touched agents are recomputed; afterwards no agent is touched. The steps rise by the cells of
/// the touched agents' joined tables.
pub(crate) fn answer_with<L: Ledger>(
    alloc: Global,
    file: &ProblemFile,
    problem: &Problem,
    tree: &Tree,
    touched: &mut Vec<bool>,
    kept: &mut KeptList,
    steps: &mut Steps<L>,
) -> Result<Edited, NoMemory>
    requires solved { problem.now ≡ problem_solved file.now }
    requires paths { tree.now.paths ≡ dfs problem.now }
    requires ground { IsEditGround problem.now tree.now kept.old.items }
    requires marked { length touched.old.items ≡ length problem.now.sizes }
    requires others { AreOthersHeld problem.now tree.now.paths touched.old.items kept.old.items }
    ensures answer { IfOk result
        (IsAnswerNow (record { file = file.now; touched = touched.old.items })) }
    ensures cleared { OnOk result
        (touched.new.items ≡ replicate (length touched.old.items) false) }
    ensures held { OnOk result (AreAllHeld problem.now tree.now.paths kept.new.items) }
    ensures same { OnErr result (touched.new.items ≡ touched.old.items) }
    ensures stay { StayHeld problem.now tree.now.paths kept.old.items kept.new.items }
    ensures counted { OnOk result (steps.new ≡ steps.old
        + touched_cells (record { file = file.now; touched = touched.old.items })) }
    ensures rises { steps.old ≤ steps.new }
    ensures within { steps.new ≤ steps.old
        + touched_cells (record { file = file.now; touched = touched.old.items }) }
{
    problem_is_whole(problem);
    remake_touched(alloc, problem, tree, touched.as_slice(), kept, steps)?;
    let values = pick_all(alloc, problem, tree, kept.as_slice())?;
    let cost = cost_in(file, values.as_slice());
    let remade = count_of(touched.as_slice());
    unmark(touched);
    Ok(Edited {
        cost,
        values: ValList::from_vec(values),
        remade,
    })
}

/// The cost of an assignment in a file's problem.
fn cost_in(file: &ProblemFile, values: &[Val]) -> u64
    requires { IsAssignment file.now.problem values.now }
    ensures { result ≡ cost file.now.problem values.now }
{
    cost_of(&file.problem, values)
}
