//! Trees from parents.

ghost use Rattle.std.specs.Prelude.{◌≡◌, ◌≤◌, length, IfOk, IfErr};
ghost use Rattle.dcop_base.specs.Limits.{variable_limit};
ghost use Rattle.pseudotree.specs.Tree.{IsTree};
ghost use Rattle.pseudotree.specs.Pseudotree.{IsPseudotree, IsPseudotreeOf};
ghost use Rattle.pseudotree.specs.Fault.{AreParents, parents_of, IsFirstFault};
ghost use Rattle.pseudotree.specs.Climb.{IsSplitFault};
ghost use Rattle.pseudotree.specs.Marks.{AreShort};

use crate::ancestry::{first_apart, lower_of_all};
use crate::climb::{paths_of, root_count};
use crate::fault::TreeFault;
use crate::marks::marks_together;
use crate::order::{all_children, preorder_of};
use crate::separator::{gather, marked_of_paths};
use crate::tree::Tree;
use dcop_base::{MAX_VARIABLES, NoMemory, Problem, VarId, VarList, problem_is_whole};
use std::alloc::Global;

/// The tree of these parents, or the first reason why they do not form a pseudotree of the problem.
///
/// `parents` has one entry for each variable: its parent, or `None` for the root. The time is
/// proportional to the tables' scopes plus the square of the number of variables.
///
/// # Errors
///
/// The first reason, in the order of [`TreeFault`], or [`TreeFault::NoMemory`] if memory runs out.
pub fn check_tree(
    alloc: Global,
    problem: &Problem,
    parents: &[Option<VarId>],
) -> Result<Tree, TreeFault>
    requires { AreParents problem.now parents.now }
    ensures tree { IfOk result (IsPseudotreeOf problem.now) }
    ensures parents { IfOk result (λ tree. parents.now ≡ parents_of tree.paths) }
    ensures fault { IfErr result (IsFirstFault problem.now parents.now) }
{
    problem_is_whole(problem);
    let count = root_count(parents);
    if count != 1 {
        return Err(TreeFault::Roots { count });
    }
    let paths = paths_of(alloc, parents)?;
    tree_of(alloc, problem, paths)
}

/// The tree in which the variables have these paths, which must be those of a pseudotree of the
/// problem. [`check_tree`] gives the same tree for its parents, but computes the paths again. Takes
/// the same order of time as `check_tree`.
///
/// # Errors
///
/// [`NoMemory`] if memory runs out. The paths are dropped in that case.
pub fn tree_on(alloc: Global, problem: &Problem, paths: Vec<VarList>) -> Result<Tree, NoMemory>
    requires { IsPseudotree problem.now paths.items }
    ensures tree { IfOk result (IsPseudotreeOf problem.now) }
    ensures paths { IfOk result (λ tree. tree.paths ≡ paths.items) }
{
    problem_is_whole(problem);
    match tree_of(alloc, problem, paths) {
        Ok(tree) => Ok(tree),
        Err(fault) => Err(only_memory(fault)),
    }
}

/// The fault of a tree that has no other fault than that memory ran out.
fn only_memory(fault: TreeFault) -> NoMemory
    requires { fault ≡ TreeFault.NoMemory }
{
    match fault {
        TreeFault::NoMemory => NoMemory,
        _ => unreachable!(),
    }
}

/// The tree with these paths, or the least pair of neighbours that are not ancestor and descendant.
fn tree_of(alloc: Global, problem: &Problem, paths: Vec<VarList>) -> Result<Tree, TreeFault>
    requires few { length paths.items ≤ variable_limit }
    requires sized { length paths.items ≡ length problem.now.sizes }
    requires tree { IsTree paths.items }
    requires short { AreShort paths.items }
    ensures tree { IfOk result (IsPseudotreeOf problem.now) }
    ensures paths { IfOk result (λ tree. tree.paths ≡ paths.items) }
    ensures fault { IfErr result (IsSplitFault problem.now paths.items) }
{
    let mut marks = marks_together(alloc, problem)?;
    let lists = paths.as_slice();
    if let Some((one, other)) = first_apart(lists, &marks) {
        return Err(TreeFault::Pair { one, other });
    }
    let lower = lower_of_all(alloc, lists, &marks)?;
    gather(alloc, &mut marks, lists)?;
    let separators = marked_of_paths(alloc, lists, &marks)?;
    let children = all_children(alloc, lists)?;
    let preorder = preorder_of(alloc, lists, children.as_slice())?;
    Ok(Tree {
        paths,
        children,
        separators,
        lower,
        preorder,
    })
}
