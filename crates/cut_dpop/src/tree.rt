//! The tree on which the agents of all turns run.

ghost use Rattle.std.specs.Prelude.{◌≡◌, length, IfOk};
ghost use Rattle.pseudotree.specs.Pseudotree.{IsPseudotreeOf};

use dcop_base::{NoMemory, Problem, VarId, VarList, problem_is_whole};
use pseudotree::{Tree, tree_on};
use std::alloc::Global;

/// A copy of a tree of this problem.
pub(crate) fn copy_of(alloc: Global, tree: &Tree, problem: &Problem) -> Result<Tree, NoMemory>
    requires { IsPseudotreeOf problem.now tree.now }
    ensures tree { IfOk result (IsPseudotreeOf problem.now) }
    ensures paths { IfOk result (λ copy. copy.paths ≡ tree.now.paths) }
{
    tree_on(alloc, problem, paths_of(alloc, tree, problem)?)
}

/// The paths in a tree of this problem. They share memory if the paths of the tree do.
fn paths_of(alloc: Global, tree: &Tree, problem: &Problem) -> Result<Vec<VarList>, NoMemory>
    requires { IsPseudotreeOf problem.now tree.now }
    ensures { IfOk result (λ paths. paths.items ≡ tree.now.paths) }
{
    problem_is_whole(problem);
    let mut paths = Vec::new(alloc);
    for index in 0..problem.sizes.as_slice().len() {
        paths.push(tree.path(VarId(index as u32)).clone()?)?;
    }
    Ok(paths)
}
