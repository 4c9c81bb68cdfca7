//! The tree that token agents find.

ghost use Rattle.std.specs.Prelude.{◌≡◌, ◌≤◌, map, IfOk, MatchOption, Some, None};
ghost use Rattle.dcop_base.specs.Limits.{budget_limit};
ghost use Rattle.protocol_steps.specs.TreeAgents.{token_agents};
ghost use Rattle.protocol_steps.specs.Outcomes.{HaveRun};
ghost use Rattle.minimised_problem.specs.Found.{IsFound, path_on, token_deliveries};

use dcop_base::{NoMemory, Problem, VarList, problem_is_whole};
use protocol_steps::{OptionList, Outcome, rounds_are_a_run};
use pseudotree::{Place, Tree, tree_on};
use run_laws::token_runs;
use std::alloc::Global;

/// A tree, and how many messages the agents took to find it.
#[derive(Debug, Drop)]
pub struct Found {
    /// The tree.
    pub tree: Tree,
    /// How many messages were taken.
    pub deliveries: u64,
}

/// How many messages the token agents of a problem take: for each variable except the root, one
/// TOKEN to it and one DONE from it. As a budget it is enough for them, and it is at most
/// 10,000,000.
pub fn search_deliveries(problem: &Problem) -> u64
    ensures all { result ≡ token_deliveries problem.now }
    ensures few { result ≤ budget_limit }
{
    2 * (problem.sizes.as_slice().len() as u64 - 1)
}

/// The depth-first tree of a problem, from the outcome of a run of its token agents under the
/// budget [`search_deliveries`].
///
/// # Errors
///
/// [`NoMemory`] if memory runs out.
pub fn tree_found(alloc: Global, problem: &Problem, outcome: &Outcome) -> Result<Found, NoMemory>
    requires { HaveRun (token_deliveries problem.now) (token_agents problem.now) outcome.now }
    ensures { IfOk result (IsFound problem.now) }
{
    token_runs();
    rounds_are_a_run();
    problem_is_whole(problem);
    let paths = paths_found(alloc, &outcome.places)?;
    Ok(Found {
        tree: tree_on(alloc, problem, paths)?,
        deliveries: outcome.deliveries,
    })
}

/// The paths that the agents have found, in order. Memory that paths share stays shared.
fn paths_found(alloc: Global, places: &OptionList<Place>) -> Result<Vec<VarList>, NoMemory>
    ensures { IfOk result (λ paths. paths.items ≡ map path_on places.now) }
{
    let mut paths = Vec::with_capacity(alloc, places.len())?;
    for agent in 0..places.len() {
        paths.push(path_on(alloc, places.get(agent))?)?;
    }
    Ok(paths)
}

/// The path that an agent has found; an empty path if it has found none.
fn path_on(alloc: Global, place: Option<&Place>) -> Result<VarList, NoMemory>
    ensures { IfOk result (λ path. MatchOption place.entry (path ≡ path_on None)
        (λ place. path ≡ path_on (Some place.now))) }
{
    match place {
        Some(place) => Ok(place.path.clone()?),
        None => Ok(VarList::new(alloc)),
    }
}
