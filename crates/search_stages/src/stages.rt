//! A search in stages, whose tables grow.

ghost use Rattle.std.specs.Prelude.{◌≡◌, ℕ, ◌+◌, ◌≤◌, ◌⊎◌, max, false, true, Some, IfOk};
ghost use Rattle.dcop_base.specs.Limits.{joined_limit};
ghost use Rattle.shared_costs.specs.Shared.{AreSharedCosts};
ghost use Rattle.bound_search.specs.Known.{IsKnown};
ghost use Rattle.search_stages.specs.Asked.{IsServed};
ghost use Rattle.search_stages.specs.Outcomes.{IsOutcome};
ghost use Rattle.search_stages.specs.Stages.{IsApart, IsNothingYet, IsStage};

use crate::asked::Asked;
use bound_search::{Ended, Known, Limits, search};
use bucket_bounds::{bounds_of, limit_within};
use dcop_base::{NoMemory, Problem, Val, ValList, problem_is_whole};
use shared_costs::{SharedCosts, shared_costs};
use std::alloc::Global;

/// A stage of a search.
#[derive(Clone, Copy, Debug, PartialEq, Eq)]
struct Stage {
    /// The most cells of a joined table.
    limit: u64,
    /// The number of nodes that it may visit, but at most a quarter of what is left of the budget.
    nodes: u64,
}

/// The stages before the last one. The last one goes on to the end of the budget. No other limits
/// and numbers of nodes that were measured were better on all problems.
const STAGES: [Stage; 2] = [
    Stage {
        limit: 4_096,
        nodes: 10_000,
    },
    Stage {
        limit: 65_536,
        nodes: 1_000_000,
    },
];

/// The most cells of a joined table in the last stage.
const LAST_LIMIT: u64 = 1_048_576;

/// The outcome of a search.
#[derive(Debug, Drop)]
pub struct Outcome {
    /// What is known about the best assignment.
    pub known: Known,
    /// How the search ended, with the greatest lower bound of its stages.
    pub ended: Ended,
}

/// Searches a problem in stages for an assignment that costs less than `best`, if there is a
/// `best`. When a stage has visited its nodes, the next one begins anew with larger tables and with
/// what is known. A stage is left out if its limit is at most that of the stage before it, or at
/// least that of the last one. So each stage has a greater limit than the one before it.
///
/// # Errors
///
/// [`NoMemory`] if it runs out of memory.
pub(crate) fn outcome_of(
    alloc: Global,
    problem: &Problem,
    asked: Asked,
    best: Option<u64>,
) -> Result<Outcome, NoMemory>
    requires { IsServed asked }
    ensures { IfOk result (IsOutcome problem.now asked best) }
{
    problem_is_whole(problem);
    let shared = shared_costs(alloc, problem)?;
    let widest = limit_of(alloc, problem, &shared, LAST_LIMIT, asked.cells)?;
    let mut outcome = nothing_known(alloc, problem, best)?;
    let mut earlier = 0;
    for stage in STAGES {
        let limit = limit_of(alloc, problem, &shared, stage.limit, asked.cells)?;
        if limit <= earlier || widest <= limit {
            continue;
        }
        let budget = stage_budget(asked.budget, outcome.known.nodes, stage.nodes);
        outcome = searched(alloc, problem, &shared, asked, limit, budget, outcome)?;
        earlier = limit;
        if !outcome.ended.spent || outcome.known.nodes >= asked.budget {
            return Ok(outcome);
        }
    }
    searched(
        alloc,
        problem,
        &shared,
        asked,
        widest,
        asked.budget,
        outcome,
    )
}

/// The limit of a stage: `most` cells, or fewer if the bounds would otherwise have too many cells.
/// It is at least 2.
fn limit_of(
    alloc: Global,
    problem: &Problem,
    shared: &SharedCosts,
    most: u64,
    cells: u64,
) -> Result<u64, NoMemory>
    requires { AreSharedCosts problem.now shared.now }
    ensures { IfOk result (λ limit. (2 ≤ limit) × (limit ≤ max most 2)) }
{
    problem_is_whole(problem);
    let sizes = problem.sizes.as_slice();
    limit_within(alloc, sizes, shared.depths.as_slice(), most.max(2), cells)
}

/// The budget of a stage, counted from the first node of the search. The stage may visit `nodes`
/// more nodes, but at most a quarter of what is left of the whole budget.
fn stage_budget(budget: u64, visited: u64, nodes: u64) -> u64
    ensures { result ≤ budget }
{
    let left = budget.saturating_sub(visited);
    visited.saturating_add(nodes.min(left / 4)).min(budget)
}

/// The outcome before the first stage.
fn nothing_known(alloc: Global, problem: &Problem, best: Option<u64>) -> Result<Outcome, NoMemory>
    ensures known { IfOk result (λ o. IsKnown problem.now o.known) }
    ensures none { IfOk result (IsNothingYet best) }
{
    let values = vec![in alloc; Val(0); problem.sizes.as_slice().len()]?;
    Ok(Outcome {
        known: Known {
            best,
            found: false,
            values: ValList::from_vec(values),
            nodes: 0,
        },
        ended: Ended {
            lower: 0,
            spent: true,
        },
    })
}

/// The outcome after one more stage, with bounds whose joined tables have at most `limit` cells.
fn searched(
    alloc: Global,
    problem: &Problem,
    shared: &SharedCosts,
    asked: Asked,
    limit: u64,
    budget: u64,
    before: Outcome,
) -> Result<Outcome, NoMemory>
    requires asked { IsServed asked }
    requires shared { AreSharedCosts problem.now shared.now }
    requires within { budget ≤ asked.budget }
    requires joined { limit ≤ joined_limit }
    requires needed { before.ended.spent ≡ true }
    requires known { IsKnown problem.now before.known }
    requires few { before.known.nodes ≤ 1000000000000 }
    ensures { IfOk result (IsStage problem.now shared.now asked budget limit before) }
{
    problem_is_whole(problem);
    let sizes = problem.sizes.as_slice();
    let buckets = bounds_of(alloc, sizes, shared.depths.as_slice(), limit, asked.cells)?;
    let limits = Limits {
        error: asked.error,
        budget,
    };
    let Outcome {
        mut known,
        ended: earlier,
    } = before;
    let ended = search(
        alloc,
        problem,
        shared,
        buckets.as_slice(),
        limits,
        &mut known,
    )?;
    let lower = ended.lower.max(earlier.lower);
    let spent = is_spent(ended.spent, known.best, lower, asked.error);
    Ok(Outcome {
        known,
        ended: Ended { lower, spent },
    })
}

/// Whether stages are spent: the last one is, and the best known cost is more than the error above
/// their bound.
fn is_spent(last: bool, best: Option<u64>, lower: u64, error: u64) -> bool
    ensures spent { result ≡ true → (last ≡ true) × IsApart error best lower }
    ensures ended { result ≡ false → (last ≡ false)
        ⊎ ((sum : ℕ) × (best ≡ Some sum) × (sum ≤ lower + error)) }
{
    last && !is_within(best, lower, error)
}

/// Whether the best known cost is at most the error above a bound.
fn is_within(best: Option<u64>, lower: u64, error: u64) -> bool
    ensures within { result ≡ true → (sum : ℕ) × (best ≡ Some sum) × (sum ≤ lower + error) }
    ensures apart { result ≡ false → IsApart error best lower }
{
    match best {
        Some(sum) => sum.saturating_sub(lower) <= error,
        None => false,
    }
}
