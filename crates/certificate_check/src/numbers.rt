//! The numbers of a report: its cost, bounds, error, deliveries and status.

ghost use Rattle.std.specs.Prelude.{◌≡◌, ◌≤◌, length};
ghost use Rattle.dcop_base.specs.Limits.{variable_limit};
ghost use Rattle.dcop_base.specs.Problem.{IsAssignment};
ghost use Rattle.minimised_problem.specs.Goal.{solved};
ghost use Rattle.certificate_check.specs.Differences.{number_difference, bound_difference};
ghost use Rattle.certificate_check.specs.Differences.{status_difference, dpop_deliveries};

use certificate_text::{Differs, Ending, Report};
use dcop_base::{MAX_VARIABLES, Problem, cost_of};
use problem_text::ProblemFile;

/// The first number that is not right. `root` is the root's cell, `deliveries` is the right number
/// of deliveries, and `problem` is the problem solved.
pub(crate) fn number_difference(
    file: &ProblemFile,
    problem: &Problem,
    root: u64,
    deliveries: u64,
    report: &Report,
) -> Option<Differs>
    requires solved { problem.now ≡ solved file.now.goal file.now.problem }
    requires values { IsAssignment file.now.problem report.now.values }
    requires turned { IsAssignment problem.now report.now.values }
    ensures { result ≡ number_difference file.now root deliveries report.now }
{
    let values = report.values.as_slice();
    let cost = cost_of(&file.problem, values);
    if report.cost != cost {
        return Some(Differs::Cost {
            left: report.cost,
            right: cost,
        });
    }
    let least = cost_of(problem, values);
    if root != least {
        return Some(Differs::Root {
            left: root,
            right: least,
        });
    }
    bound_difference(deliveries, report)
}

/// The first of lower bound, upper bound, error, deliveries and status that is not right.
fn bound_difference(deliveries: u64, report: &Report) -> Option<Differs>
    ensures { result ≡ bound_difference deliveries report.now }
{
    let cost = report.cost;
    if report.lower != cost {
        return Some(Differs::Lower {
            left: report.lower,
            right: cost,
        });
    }
    if report.upper != cost {
        return Some(Differs::Upper {
            left: report.upper,
            right: cost,
        });
    }
    if report.error != 0 {
        return Some(Differs::Error {
            left: report.error,
            right: 0,
        });
    }
    if report.deliveries != deliveries {
        return Some(Differs::Deliveries {
            left: report.deliveries,
            right: deliveries,
        });
    }
    status_difference(report.status)
}

/// The difference of a status that is not solved.
fn status_difference(status: Ending) -> Option<Differs>
    ensures { result ≡ status_difference status }
{
    match status {
        Ending::Solved => None,
        Ending::Spent => Some(Differs::Status { ending: status }),
    }
}

/// How many messages DPOP takes with `agents` agents.
pub(crate) fn dpop_deliveries(agents: usize) -> u64
    requires { agents ≤ variable_limit }
    ensures { result ≡ dpop_deliveries agents }
{
    2 * (agents as u64).saturating_sub(1)
}
