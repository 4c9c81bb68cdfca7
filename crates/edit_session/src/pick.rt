//! Values that are picked from the root down.

ghost use Rattle.std.specs.Prelude.{◌≡◌, ℕ, ◌<◌, All, IfOk, length, map, slice_index};
ghost use Rattle.dcop_base.specs.Problem.{IsAssignment};
ghost use Rattle.pseudotree.specs.Pseudotree.{separator_of};
ghost use Rattle.protocol_steps.specs.Dpop.{best_value};
ghost use Rattle.dcop_optimum.specs.TreeOptimum.{IsFirstOptimumOf};
ghost use Rattle.edit_session.specs.Held.{agent_with, AreAllHeld};
ghost use Rattle.edit_session.specs.Loops.{IsEditGround};

use crate::law::{children_may_be_joined, lowest_picks_are_first, picks_read_separators};
use dcop_base::{NoMemory, Problem, Val, VarId, problem_is_whole};
use dpop_agent::Made;
use pseudotree::Tree;
use std::alloc::Global;
use util_project::pick;

/// The values of these variables.
fn values_of(alloc: Global, vars: &[VarId], values: &[Val]) -> Result<Vec<Val>, NoMemory>
    requires { All (λ v. v < length values.now) vars.now }
    ensures { IfOk result (λ list. list.items ≡ map (slice_index values.now) vars.now) }
{
    let mut list = Vec::with_capacity(alloc, vars.len())?;
    for var in vars {
        list.push(values[var.0 as usize])?;
    }
    Ok(list)
}

/// The lowest value of a variable at which its agent's joined table is least, given these values of
/// its separator.
fn picked(
    alloc: Global,
    problem: &Problem,
    tree: &Tree,
    kept: &[Option<Made>],
    var: VarId,
    values: &[Val],
) -> Result<Val, NoMemory>
    requires ground { IsEditGround problem.now tree.now kept.now }
    requires held { AreAllHeld problem.now tree.now.paths kept.now }
    requires known { var < length problem.now.sizes }
    requires assignment { IsAssignment problem.now values.now }
    ensures best { IfOk result (λ d. d
        ≡ best_value (agent_with problem.now tree.now.paths kept.now var) (slice_index values.now)) }
    ensures below { IfOk result (λ d. d < slice_index problem.now.sizes var) }
{
    children_may_be_joined();
    picks_read_separators();
    problem_is_whole(problem);
    let Some(made) = &kept[var.0 as usize] else {
        // The tables of each agent are held.
        unreachable!();
    };
    let others = values_of(alloc, tree.separator(var).as_slice(), values)?;
    Ok(pick(made.joined(), var, others.as_slice()))
}

/// The values that the agents take, from the root down: the first optimum of the tree.
pub(crate) fn pick_all(
    alloc: Global,
    problem: &Problem,
    tree: &Tree,
    kept: &[Option<Made>],
) -> Result<Vec<Val>, NoMemory>
    requires ground { IsEditGround problem.now tree.now kept.now }
    requires held { AreAllHeld problem.now tree.now.paths kept.now }
    ensures { IfOk result (λ values. IsFirstOptimumOf problem.now tree.now.paths values.items) }
{
    lowest_picks_are_first();
    picks_read_separators();
    problem_is_whole(problem);
    let mut values = vec![in alloc; Val(0); problem.sizes.as_slice().len()]?;
    let order = tree.preorder().as_slice();
    for var in order {
        values[var.0 as usize] = picked(alloc, problem, tree, kept, *var, values.as_slice())?;
    }
    Ok(values)
}
