//! Cutting the problem solved for a file.

ghost use Rattle.std.specs.Prelude.{◌≡◌, ◌<◌, ◌≤◌};
ghost use Rattle.dcop_base.specs.Limits.{joined_limit, size_limit};
ghost use Rattle.minimised_problem.specs.Goal.{problem_solved};
ghost use Rattle.pseudotree.specs.DepthFirst.{dfs};
ghost use Rattle.pseudotree.specs.Pseudotree.{IsPseudotreeOf};
ghost use Rattle.solve_cut.specs.Cut.{GivesCut};

use cut_dpop::{CutEnd, CutFault, run_cut};
use dcop_base::{Problem, problem_is_whole};
use dcop_edge::Gate;
use minimised_problem::ProblemSolved;
use problem_text::ProblemFile;
use pseudotree::{Tree, depth_first_trees_are_linked};
use std::alloc::Global;
use std::thread::Threads;

/// The result of a cut of the problem solved for a file on its depth-first tree. `keeps` says
/// whether the tables of all turns are kept.
pub(crate) fn cut_for<R: Threads + Sync, G: Gate>(
    rt: &R,
    alloc: Global,
    file: &ProblemFile,
    tree: &Tree,
    limit: u64,
    workers: u32,
    keeps: bool,
    gate: &G,
) -> Result<CutEnd, CutFault>
    requires tree { IsPseudotreeOf (problem_solved file.now) tree.now }
    requires paths { tree.now.paths ≡ dfs (problem_solved file.now) }
    requires least { size_limit ≤ limit }
    requires most { limit ≤ joined_limit }
    requires workers { 0 < workers }
    ensures { GivesCut (problem_solved file.now) limit keeps result }
{
    let solved = ProblemSolved::of(alloc, file)?;
    cut_on(
        rt,
        alloc,
        solved.problem(),
        tree,
        limit,
        workers,
        keeps,
        gate,
    )
}

/// The result of a cut of a problem on its depth-first tree. `keeps` says whether the tables of all
/// turns are kept.
fn cut_on<R: Threads + Sync, G: Gate>(
    rt: &R,
    alloc: Global,
    problem: &Problem,
    tree: &Tree,
    limit: u64,
    workers: u32,
    keeps: bool,
    gate: &G,
) -> Result<CutEnd, CutFault>
    requires tree { IsPseudotreeOf problem.now tree.now }
    requires paths { tree.now.paths ≡ dfs problem.now }
    requires least { size_limit ≤ limit }
    requires most { limit ≤ joined_limit }
    requires workers { 0 < workers }
    ensures { GivesCut problem.now limit keeps result }
{
    depth_first_trees_are_linked();
    problem_is_whole(problem);
    run_cut(rt, alloc, problem, tree, limit, workers, keeps, gate)
}
