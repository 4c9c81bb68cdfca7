//! The report of a search on a problem, from its outcome on the problem that is solved.

ghost use Rattle.std.specs.Prelude.{◌≡◌, IfOk, option_map};
ghost use Rattle.dcop_optimum.specs.Goal.{top_of};
ghost use Rattle.minimised_problem.specs.Goal.{solved};
ghost use Rattle.search_stages.specs.Asked.{IsServed};
ghost use Rattle.search_stages.specs.Outcomes.{IsOutcome, TellsOutcome};
ghost use Rattle.search_stages.specs.Turning.{told_sum, found_told, ending_told};

use crate::asked::Asked;
use crate::report::{Found, SearchEnding, SearchReport};
use crate::stages::{Outcome, outcome_of};
use bound_search::Known;
use dcop_base::{NoMemory, Problem};
use dcop_optimum::top_sum;
use minimised_problem::ProblemSolved;
use problem_text::{Goal, ProblemFile};
use std::alloc::Global;

/// The report of a search on a file whose variables are in the order of the search.
///
/// # Errors
///
/// [`NoMemory`] if it runs out of memory.
pub fn search_report(
    alloc: Global,
    file: &ProblemFile,
    asked: Asked,
) -> Result<SearchReport, NoMemory>
    requires { IsServed asked }
    ensures { IfOk result (TellsOutcome file.now.goal file.now.problem asked) }
{
    let solved = ProblemSolved::of(alloc, file)?;
    let top = top_sum(&file.problem);
    let best = asked.better.map(|sum| told_sum(file.goal, top, sum));
    let outcome = outcome_of(alloc, solved.problem(), asked, best)?;
    Ok(told(&file.problem, file.goal, asked, outcome))
}

/// The outcome of a search as a report on the problem. For goal max each sum is the top sum less
/// the cost of the problem solved.
fn told(problem: &Problem, goal: Goal, asked: Asked, outcome: Outcome) -> SearchReport
    requires { IsOutcome (solved goal problem.now) asked
        (option_map (told_sum goal (top_of problem.now)) asked.better) outcome }
    ensures { TellsOutcome goal problem.now asked result }
{
    let top = top_sum(problem);
    let Outcome { known, ended } = outcome;
    SearchReport {
        ending: ending_of(known.found, ended.spent),
        goal,
        error: asked.error,
        nodes: known.nodes,
        bound: told_sum(goal, top, ended.lower),
        found: found_of(goal, top, known),
    }
}

/// How a search ended.
fn ending_of(found: bool, spent: bool) -> SearchEnding
    ensures { result ≡ ending_told found spent }
{
    if spent {
        SearchEnding::Spent
    } else if found {
        SearchEnding::Solved
    } else {
        SearchEnding::NoneBetter
    }
}

/// A cost of the problem solved as a sum of the problem, and the other way round.
fn told_sum(goal: Goal, top: u64, cost: u64) -> u64
    ensures { result ≡ told_sum goal top cost }
{
    match goal {
        Goal::Min => cost,
        Goal::Max => top.saturating_sub(cost),
    }
}

/// The assignment that was found, if any.
fn found_of(goal: Goal, top: u64, known: Known) -> Option<Found>
    ensures { result ≡ found_told goal top known }
{
    match known.best {
        Some(best) if known.found => Some(Found {
            cost: told_sum(goal, top, best),
            values: known.values,
        }),
        _ => None,
    }
}
