//! The search.

ghost use Rattle.std.specs.Prelude.{◌≡◌, ◌+◌, ◌≤◌, false, length, IfOk, OnOk};
ghost use Rattle.std.specs.List.{sum};
ghost use Rattle.shared_costs.specs.Shared.{AreSharedCosts};
ghost use Rattle.bucket_bounds.specs.Bounds.{AreBucketBounds};
ghost use Rattle.dcop_base.specs.Limits.{amount_limit, variable_limit};
ghost use Rattle.bound_search.specs.Estimate.{unscaled};
ghost use Rattle.bound_search.specs.Grounds.{AreGrounds};
ghost use Rattle.bound_search.specs.Descent.{IsStanding, far_of};
ghost use Rattle.bound_search.specs.First.{HasSearched, constants_cost, first_sum};
ghost use Rattle.bound_search.specs.Known.{IsKnown};
ghost use Rattle.bound_search.specs.Searched.{IsBoundSearch};
ghost use Rattle.bound_search.specs.Visits.{HasVisited};

use crate::descent::descend;
use crate::known::Known;
use crate::progress::Progress;
use crate::room::room_of;
use crate::rules::Rules;
use bucket_bounds::Bucket;
use dcop_base::{NoMemory, Problem, Table, Val, ValList, problem_is_whole};
use shared_costs::SharedCosts;
use std::alloc::Global;

/// How far a search goes.
#[derive(Clone, Copy, Debug, PartialEq, Eq)]
pub struct Limits {
    /// By how much the cost of the best assignment that is found may miss the optimum.
    pub error: u64,
    /// The number of nodes that may be visited in all, with those before the search, once something
    /// is known.
    pub budget: u64,
}

/// How a search ended.
#[derive(Clone, Copy, Debug, PartialEq, Eq)]
pub struct Ended {
    /// A lower bound on the cost of each assignment.
    pub lower: u64,
    /// Whether the budget was reached before the search had ended.
    pub spent: bool,
}

/// Searches a problem for an assignment that is better than what is known, by the bounds of its
/// shared costs. Values of the next variable are visited in ascending order of their estimates. A
/// value is passed over if its estimate, with the error added, is no better than the best known
/// cost. If nothing is known, the budget does not end the first descent. No node is visited twice.
///
/// # Errors
///
/// [`NoMemory`] if it runs out of memory.
pub fn search(
    alloc: Global,
    problem: &Problem,
    shared: &SharedCosts,
    buckets: &[Bucket],
    limits: Limits,
    known: &mut Known,
) -> Result<Ended, NoMemory>
    requires shared { AreSharedCosts problem.now shared.now }
    requires bounds { AreBucketBounds problem.now.sizes shared.now.depths buckets.now }
    requires known { IsKnown problem.now known.old }
    requires few { known.old.nodes ≤ 4611686018427387904 }
    ensures { IfOk result (IsBoundSearch problem.now shared.now.scale buckets.now limits.error
        limits.budget known.old known.new) }
{
    problem_is_whole(problem);
    let rules = Rules {
        scale: shared.scale,
        error: limits.error,
        budget: limits.budget,
    };
    let mut found = Vec::from_slice(alloc, known.values.as_slice())?;
    let mut progress = Progress {
        best: known.best,
        found: known.found,
        nodes: known.nodes,
        lower: u64::MAX,
        spent: false,
        room: room_of(rules, known.best),
    };
    search_from_top(
        alloc,
        problem.sizes.as_slice(),
        buckets,
        rules,
        found.as_mut_slice(),
        &mut progress,
    )?;
    known.best = progress.best;
    known.found = progress.found;
    known.values = ValList::from_vec(found);
    known.nodes = progress.nodes;
    Ok(Ended {
        lower: unscaled(rules.scale, progress.lower),
        spent: progress.spent,
    })
}

/// Searches all assignments.
fn search_from_top(
    alloc: Global,
    sizes: &[u16],
    buckets: &[Bucket],
    rules: Rules,
    found: &mut [Val],
    progress: &mut Progress,
) -> Result<(), NoMemory>
    requires grounds { AreGrounds sizes.now rules.scale buckets.now }
    requires new { progress.old.spent ≡ false }
    requires few { progress.old.nodes ≤ 4611686018427387904 }
    requires standing { IsStanding sizes.now buckets.now rules found.old progress.old }
    ensures standing { OnOk result (IsStanding sizes.now buckets.now rules found.new progress.new) }
    ensures searched { OnOk result (HasSearched sizes.now buckets.now rules progress.old progress.new) }
    ensures visits { OnOk result (HasVisited sizes.now buckets.now rules
        (far_of progress.old) (far_of progress.new)) }
{
    let mut values = vec![in alloc; Val(0); sizes.len()]?;
    let mut rows = vec![in alloc; 0; total_of(sizes)]?;
    let first = first_estimate(buckets);
    descend(
        sizes,
        buckets,
        rules,
        0,
        first,
        values.as_mut_slice(),
        rows.as_mut_slice(),
        found,
        progress,
    );
    Ok(())
}

/// The estimate at depth 0.
fn first_estimate(buckets: &[Bucket]) -> u64
    requires within { first_sum buckets.now ≤ amount_limit }
    ensures { result ≡ first_sum buckets.now }
{
    let mut sum = 0;
    for bucket in buckets {
        sum += bucket.fixed + cost_of_constants(bucket.sent.as_slice());
    }
    sum
}

/// The sum of the tables without variables.
fn cost_of_constants(tables: &[Table]) -> u64
    requires within { constants_cost tables.now ≤ amount_limit }
    ensures { result ≡ constants_cost tables.now }
{
    let mut cost = 0;
    for table in tables {
        if table.scope.as_slice().is_empty() {
            cost += table.eval(&[]);
        }
    }
    cost
}

/// The sum of sizes.
fn total_of(sizes: &[u16]) -> usize
    requires { length sizes.now ≤ variable_limit }
    ensures { result ≡ sum sizes.now }
{
    let mut total = 0;
    for size in sizes {
        total += usize::from(*size);
    }
    total
}

/// A scaled cost as a cost of the problem, rounded up.
#[tactic(auto, using(crate::proofs::ScaleLaws::unscaled_zero, crate::proofs::ScaleLaws::unscaled_some))]
fn unscaled(scale: u64, scaled: u64) -> u64
    requires { 1 ≤ scale }
    ensures { result ≡ unscaled scale scaled }
{
    if scaled == 0 {
        return 0;
    }
    (scaled - 1) / scale + 1
}
