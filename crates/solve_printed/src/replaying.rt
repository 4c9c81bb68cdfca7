//! Replaying the text of a report.

ghost use Rattle.std.specs.Prelude.{◌≡◌, ◌+◌, ◌≤◌, length, IfOk};
ghost use Rattle.std.specs.List.{All};
ghost use Rattle.dcop_base.specs.Limits.{amount_limit, input_limit};
ghost use Rattle.dcop_base.specs.Whole.{IsProblem};
ghost use Rattle.pseudotree.specs.DepthFirst.{dfs};
ghost use Rattle.protocol_steps.specs.Network.{start_state};
ghost use Rattle.protocol_steps.specs.TreeAgents.{adopt_agents};
ghost use Rattle.run_log.specs.Logs.{events_of};
ghost use Rattle.run_log.specs.LogText.{FitsEvent};
ghost use Rattle.problem_text.specs.Steps.{declared_by};
ghost use Rattle.delivery_core.specs.Faults.{Replays};
ghost use Rattle.minimised_problem.specs.LogHolds.{agents_for};
ghost use Rattle.solve_report.specs.AnswerText.{HasText};
ghost use Rattle.solve_printed.specs.Replaying.{log_up_to, IsFaultAnswer, IsReplay, AnswersReplay};

use crate::events::{events_of, log_up_to};
use crate::reading::{LogRead, read_log};
use crate::rows::rows_of;
use certificate_text::{Differs, Verdict};
use dcop_base::{NoMemory, Problem, problem_is_whole};
use delivery_core::{CoreState, ReplayFault, replay};
use log_check::start_for;
use minimised_problem::ProblemSolved;
use problem_text::{Names, ProblemFile};
use run_log::LogEvent;
use solve_report::Answer;
use std::alloc::Global;

/// The answer to the text of a report on a file: the first `after` events of its log are replayed,
/// or all if no number is given. `before` lines precede the text.
///
/// The answer has the number of replayed events and the state of each agent after them, or the
/// first of them that is not lawful. If the report has no log, the answer is report kind 9 at the
/// first line of its certificate. If the text is not a report, it is the first fault of the text.
/// Lines count from the beginning of the input. The lines before the text and the bytes of the text
/// are together at most 2^28, the most bytes of an input.
///
/// # Errors
///
/// [`NoMemory`] if memory runs out.
pub fn replay_answer(
    alloc: Global,
    file: ProblemFile,
    text: &[u8],
    before: u64,
    after: Option<u64>,
) -> Result<Answer, NoMemory>
    requires few { before + length text.now ≤ input_limit }
    ensures belongs { IfOk result (AnswersReplay (declared_by file) before text.now after) }
    ensures told { IfOk result HasText }
{
    whole_problem(&file);
    match read_log(alloc, &file, text, before)? {
        LogRead::Log { error, log } => {
            replayed(alloc, file, error, log_up_to(log.as_slice(), after))
        }
        LogRead::Refused(refusal) => Ok(refusal),
    }
}

/// The problem of every file is whole. Reading a field of the file shows this; the call does no
/// more.
fn whole_problem(file: &ProblemFile)
    ensures { IsProblem file.now.problem }
{
    problem_is_whole(&file.problem);
}

/// The answer to a replay of these events, for a requested error.
fn replayed(
    alloc: Global,
    file: ProblemFile,
    error: u64,
    log: &[LogEvent],
) -> Result<Answer, NoMemory>
    requires error { error ≤ amount_limit }
    requires events { All (FitsEvent (length file.problem.sizes)) log.now }
    ensures belongs { IfOk result (IsReplay file (start_state (agents_for file error)) (events_of log.now)) }
    ensures told { IfOk result HasText }
{
    problem_is_whole(&file.problem);
    match played(alloc, &file, error, log) {
        Ok(core) => {
            let agents = rows_of(alloc, &core, file.names.len())?;
            Ok(Answer::Replay {
                events: log.len() as u64,
                agents,
                names: file.names,
            })
        }
        Err(fault) => fault_answer(file.names, fault),
    }
}

/// The answer that says why events are not a run, with the names of the problem's variables.
///
/// # Errors
///
/// [`NoMemory`] if memory runs out.
pub fn fault_answer(names: Names, fault: ReplayFault) -> Result<Answer, NoMemory>
    ensures { IfOk result (IsFaultAnswer names fault) }
{
    match fault {
        ReplayFault::BadEvent { at, fault } => Ok(Answer::Verdict {
            verdict: Verdict::No(Differs::Event { at, fault }),
            names,
        }),
        ReplayFault::NoMemory => Err(NoMemory),
    }
}

/// The end of the run of these events, from the start of the ADOPT agents on the problem that is
/// solved for a file, on its depth-first tree, for a requested error.
fn played(
    alloc: Global,
    file: &ProblemFile,
    error: u64,
    log: &[LogEvent],
) -> Result<CoreState, ReplayFault>
    requires { error ≤ amount_limit }
    ensures end { Replays (start_state (agents_for file.now error)) (events_of log.now) result }
    ensures size { IfOk result (λ core. length core.seats ≡ length file.now.problem.sizes) }
{
    let solved = ProblemSolved::of(alloc, file)?;
    played_on(alloc, solved.problem(), error, log)
}

/// The same, for the agents of this problem.
fn played_on(
    alloc: Global,
    problem: &Problem,
    error: u64,
    log: &[LogEvent],
) -> Result<CoreState, ReplayFault>
    requires { error ≤ amount_limit }
    ensures end { Replays (start_state (adopt_agents problem.now (dfs problem.now) error)) (events_of log.now) result }
    ensures size { IfOk result (λ core. length core.seats ≡ length problem.now.sizes) }
{
    let start = start_for(alloc, problem, error)?;
    let events = events_of(alloc, log)?;
    replay(alloc, problem, start, &events)
}
