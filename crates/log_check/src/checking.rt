//! Checking a report with a log.

ghost use Rattle.std.specs.Prelude.{◌≡◌, ◌≤◌, length, IfOk};
ghost use Rattle.std.specs.List.{All};
ghost use Rattle.dcop_base.specs.Limits.{amount_limit};
ghost use Rattle.dcop_base.specs.Whole.{IsProblem};
ghost use Rattle.pseudotree.specs.DepthFirst.{dfs};
ghost use Rattle.protocol_steps.specs.TreeAgents.{adopt_agents};
ghost use Rattle.delivery_core.specs.Agents.{IsStartFor, agents_of};
ghost use Rattle.run_log.specs.LogText.{FitsEvent};
ghost use Rattle.certificate_text.specs.Fits.{Fits};
ghost use Rattle.minimised_problem.specs.Goal.{solved};
ghost use Rattle.minimised_problem.specs.Verdict.{ShowsBest};
ghost use Rattle.minimised_problem.specs.Differences.{log_difference};
ghost use Rattle.minimised_problem.specs.LogVerdicts.{IsLogVerdict, IsLogExact};
ghost use Rattle.log_check.specs.Shows.{IsToldBy, ShowsReport};

use crate::end::end_difference;
use certificate_text::{Differs, Report, Verdict};
use dcop_base::{NoMemory, Problem, problem_is_whole};
use dcop_edge::OpenGate;
use delivery_core::Start;
use delivery_turns::play_out;
use log_replay::{LogFault, WrongStamp, replay_log};
use minimised_problem::{
    ProblemSolved, differences_are_exact, logs_show, search_deliveries, tree_found, verdict_of,
};
use problem_text::ProblemFile;
use run_log::LogEvent;
use std::alloc::Global;

/// Checks whether a report with this log shows that no values are better by more than its gap.
///
/// The verdict is yes, with the cost and the gap, exactly when the report holds with the log: the
/// log is a run of ADOPT agents on the problem solved, on its depth-first tree, for the report's
/// error, with right stamps; the report describes its end; and if it is solved, its gap is at most
/// the error. The cost is then worse than the best sum of the file by at most the gap, whoever made
/// the report. Otherwise the verdict is no, with the first difference: the first event that is not
/// lawful, the first stamp that is wrong, and then the status, the deliveries, the values, the
/// cost, the bounds, and a gap above the error.
///
/// The time is that of the agents' activations, and of the search for the tree.
///
/// # Errors
///
/// [`NoMemory`] if memory runs out.
pub fn check_log(
    alloc: Global,
    file: &ProblemFile,
    report: &Report,
    log: &[LogEvent],
) -> Result<Verdict, NoMemory>
    requires fits { Fits report.now file.now }
    requires events { All (FitsEvent (length file.now.problem.sizes)) log.now }
    ensures verdict { IfOk result (IsLogVerdict file.now report.now log.now) }
    ensures exact { IfOk result (IsLogExact file.now report.now log.now) }
    ensures shown { IfOk result (ShowsReport file.now report.now) }
    ensures best { IfOk result (ShowsBest file.now) }
{
    logs_show();
    differences_are_exact();
    problem_is_whole(&file.problem);
    let differs = log_difference(alloc, file, report, log)?;
    Ok(verdict_of(file, report, differs))
}

/// The first difference of a report with this log.
fn log_difference(
    alloc: Global,
    file: &ProblemFile,
    report: &Report,
    log: &[LogEvent],
) -> Result<Option<Differs>, NoMemory>
    requires fits { Fits report.now file.now }
    requires events { All (FitsEvent (length file.now.problem.sizes)) log.now }
    ensures { IfOk result (λ differs. differs ≡ log_difference file.now report.now log.now) }
{
    let solved = ProblemSolved::of(alloc, file)?;
    difference_in(alloc, file, solved.problem(), report, log)
}

/// The same, given the problem solved.
fn difference_in(
    alloc: Global,
    file: &ProblemFile,
    problem: &Problem,
    report: &Report,
    log: &[LogEvent],
) -> Result<Option<Differs>, NoMemory>
    requires solved { problem.now ≡ solved file.now.goal file.now.problem }
    requires fits { Fits report.now file.now }
    requires events { All (FitsEvent (length file.now.problem.sizes)) log.now }
    ensures { IfOk result (λ differs. differs ≡ log_difference file.now report.now log.now) }
{
    problem_is_whole(problem);
    let start = start_for(alloc, problem, report.error)?;
    match replay_log(alloc, problem, &start, log) {
        Ok(core) => Ok(end_difference(file, problem, &core, report)),
        Err(fault) => fault_difference(fault),
    }
}

/// The difference that says why a log is not a run with right stamps.
fn fault_difference(fault: LogFault) -> Result<Option<Differs>, NoMemory>
    ensures { IfOk result (IsToldBy fault) }
{
    match fault {
        LogFault::BadEvent { at, fault } => Ok(Some(Differs::Event { at, fault })),
        LogFault::BadStamp(wrong) => Ok(Some(stamp_difference(wrong))),
        LogFault::NoMemory => Err(NoMemory),
    }
}

/// The difference of a wrong stamp.
fn stamp_difference(wrong: WrongStamp) -> Differs
    ensures { result ≡ Differs.Stamp wrong.at wrong.left wrong.right }
{
    let WrongStamp { at, left, right } = wrong;
    Differs::Stamp { at, left, right }
}

/// The start of the ADOPT agents of a problem on its depth-first tree, for an error of at most
/// 2^62. Its token agents find the tree.
///
/// # Errors
///
/// [`NoMemory`] if memory runs out.
pub fn start_for(alloc: Global, problem: &Problem, error: u64) -> Result<Start, NoMemory>
    requires { error ≤ amount_limit }
    ensures start { IfOk result (IsStartFor problem.now) }
    ensures agents { IfOk result (λ start.
        agents_of problem.now start ≡ adopt_agents problem.now (dfs problem.now) error) }
{
    let budget = search_deliveries(problem);
    let outcome = play_out(alloc, &OpenGate, problem, &Start::Token, budget)?;
    let found = tree_found(alloc, problem, &outcome)?;
    Ok(Start::Adopt(found.tree, error))
}
