//! The cost and the bounds of a report, and its gap.

ghost use Rattle.std.specs.Prelude.{◌≡◌, ◌-◌};
ghost use Rattle.dcop_base.specs.Problem.{IsAssignment};
ghost use Rattle.minimised_problem.specs.Goal.{solved};
ghost use Rattle.minimised_problem.specs.Gap.{gap_of};
ghost use Rattle.minimised_problem.specs.LogEnds.{least_known, lower_for, upper_for};
ghost use Rattle.minimised_problem.specs.Differences.{error_difference, bound_difference};

use certificate_text::{Differs, Ending, Report};
use dcop_base::{Problem, cost_of};
use dcop_optimum::top_sum;
use minimised_problem::gap_of;
use problem_text::{Goal, ProblemFile};
use protocol_steps::Standing;

/// The first of cost, lower bound and upper bound that is not right, given the standing of the
/// root's agent, or otherwise a gap above the error.
pub(crate) fn bound_difference(
    file: &ProblemFile,
    problem: &Problem,
    top: Standing,
    report: &Report,
) -> Option<Differs>
    requires solved { problem.now ≡ solved file.now.goal file.now.problem }
    requires values { IsAssignment file.now.problem report.now.values }
    requires turned { IsAssignment problem.now report.now.values }
    ensures { result ≡ bound_difference file.now top report.now }
{
    let values = report.values.as_slice();
    let least = least_known(cost_of(problem, values), top.upper);
    let right = cost_of(&file.problem, values);
    if report.cost != right {
        return Some(Differs::Cost {
            left: report.cost,
            right,
        });
    }
    let right = lower_for(file.goal, &file.problem, top.lower, least);
    if report.lower != right {
        return Some(Differs::Lower {
            left: report.lower,
            right,
        });
    }
    let right = upper_for(file.goal, &file.problem, top.lower, least);
    if report.upper != right {
        return Some(Differs::Upper {
            left: report.upper,
            right,
        });
    }
    error_difference(report.status, report.error, gap_of(file.goal, report))
}

/// A gap above the error, if the report is solved.
fn error_difference(status: Ending, error: u64, gap: u64) -> Option<Differs>
    ensures { result ≡ error_difference status error gap }
{
    match status {
        Ending::Solved if error < gap => Some(Differs::Error {
            left: error,
            right: gap,
        }),
        _ => None,
    }
}

/// The lesser of a sum and a bound, or the sum if there is no bound.
fn least_known(sum: u64, bound: Option<u64>) -> u64
    ensures { result ≡ least_known sum bound }
{
    match bound {
        Some(bound) => sum.min(bound),
        None => sum,
    }
}

/// The lower bound of the best sum that these bounds of the optimum of the problem solved show.
fn lower_for(goal: Goal, problem: &Problem, lower: u64, upper: u64) -> u64
    ensures { result ≡ lower_for goal problem.now lower upper }
{
    match goal {
        Goal::Min => lower,
        Goal::Max => top_sum(problem).saturating_sub(upper),
    }
}

/// The upper bound of the best sum that these bounds of the optimum of the problem solved show.
fn upper_for(goal: Goal, problem: &Problem, lower: u64, upper: u64) -> u64
    ensures { result ≡ upper_for goal problem.now lower upper }
{
    match goal {
        Goal::Min => upper,
        Goal::Max => top_sum(problem).saturating_sub(lower),
    }
}
