//! The end of the run of a log, compared with what a report says about it.

ghost use Rattle.std.specs.Prelude.{◌≡◌, ◌<◌, ◌≤◌, length, map};
ghost use Rattle.std.specs.List.{list_all};
ghost use Rattle.dcop_base.specs.Limits.{amount_limit, variable_limit};
ghost use Rattle.dcop_base.specs.Problem.{IsAssignment};
ghost use Rattle.protocol_steps.specs.View.{value_of};
ghost use Rattle.protocol_steps.specs.Network.{Network};
ghost use Rattle.delivery_core.specs.State.{views_of};
ghost use Rattle.delivery_core.specs.NetworkState.{IsStateOf};
ghost use Rattle.minimised_problem.specs.Goal.{solved};
ghost use Rattle.minimised_problem.specs.Differences.{status_difference, count_difference, value_difference, end_difference};
ghost use Rattle.log_check.specs.Ends.{core_difference};

use crate::numbers::bound_difference;
use certificate_text::{Differs, Ending, Report};
use dcop_base::{MAX_VARIABLES, Problem, Val, VarId};
use delivery_core::CoreState;
use problem_text::ProblemFile;

/// The first difference of a report from the end of a run of the agents on the problem solved.
pub(crate) fn end_difference(
    file: &ProblemFile,
    problem: &Problem,
    core: &CoreState,
    report: &Report,
) -> Option<Differs>
    requires solved { problem.now ≡ solved file.now.goal file.now.problem }
    requires values { IsAssignment file.now.problem report.now.values }
    requires turned { IsAssignment problem.now report.now.values }
    requires deliveries { report.now.deliveries ≤ amount_limit }
    requires agents { length core.now.seats ≡ length problem.now.sizes }
    requires some { 0 < length problem.now.sizes }
    requires few { length problem.now.sizes ≤ variable_limit }
    ensures { (end : Network) → IsStateOf end core.now → result ≡ end_difference file.now end report.now }
{
    core_difference(file, problem, core, report)
}

/// The same, by the core state.
fn core_difference(
    file: &ProblemFile,
    problem: &Problem,
    core: &CoreState,
    report: &Report,
) -> Option<Differs>
    requires solved { problem.now ≡ solved file.now.goal file.now.problem }
    requires values { IsAssignment file.now.problem report.now.values }
    requires turned { IsAssignment problem.now report.now.values }
    requires agents { length core.now.seats ≡ length problem.now.sizes }
    requires some { 0 < length problem.now.sizes }
    requires few { length problem.now.sizes ≤ variable_limit }
    ensures { result ≡ core_difference file.now core.now report.now }
{
    let differs = status_difference(core.all_ended(), report.status);
    if differs.is_some() {
        return differs;
    }
    let differs = count_difference(report.deliveries, core.deliveries());
    if differs.is_some() {
        return differs;
    }
    let differs = value_difference(core, report.values.as_slice());
    if differs.is_some() {
        return differs;
    }
    bound_difference(file, problem, core.standing(VarId(0)), report)
}

/// The status, if it is not the right one.
fn status_difference(ended: bool, status: Ending) -> Option<Differs>
    ensures { result ≡ status_difference ended status }
{
    match (ended, status) {
        (true, Ending::Solved) | (false, Ending::Spent) => None,
        (_, ending) => Some(Differs::Status { ending }),
    }
}

/// The deliveries, if their number is not right.
fn count_difference(left: u64, right: u64) -> Option<Differs>
    ensures { result ≡ count_difference left right }
{
    if left == right {
        return None;
    }
    Some(Differs::Deliveries { left, right })
}

/// The lowest variable whose value is not that of its agent.
fn value_difference(core: &CoreState, values: &[Val]) -> Option<Differs>
    requires there { length values.now ≤ length core.now.seats }
    requires few { length core.now.seats ≤ variable_limit }
    ensures { result ≡ value_difference 0 values.now (map value_of (views_of core.now.seats)) }
{
    for (at, value) in values.iter().enumerate() {
        let var = VarId(at as u32);
        if *value != core.value(var) {
            return Some(Differs::Value { var });
        }
    }
    None
}
