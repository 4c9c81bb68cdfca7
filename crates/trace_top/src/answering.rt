//! The reply to words and a source.

ghost use Rattle.std.specs.Prelude.{◌≡◌, ◌+◌, ◌≤◌, length, map, IfOk, OnErr, string_bytes};
ghost use Rattle.std.specs.List.{All};
ghost use Rattle.dcop_base.specs.Limits.{amount_limit, input_limit};
ghost use Rattle.dcop_base.specs.Whole.{IsProblem};
ghost use Rattle.pseudotree.specs.DepthFirst.{dfs};
ghost use Rattle.protocol_steps.specs.Network.{start_state};
ghost use Rattle.protocol_steps.specs.TreeAgents.{adopt_agents};
ghost use Rattle.problem_text.specs.Steps.{declared_by};
ghost use Rattle.run_log.specs.LogText.{FitsEvent};
ghost use Rattle.minimised_problem.specs.LogHolds.{agents_for};
ghost use Rattle.answer_io.specs.Input.{Took, read_limit, source_state};
ghost use Rattle.answer_io.specs.Fronts.{front_read};
ghost use Rattle.trace_text.specs.Trace.{Traces};
ghost use Rattle.program_frame.specs.Program.{IsReplied};
ghost use Rattle.program_frame.specs.Replies.{IsShowable};
ghost use Rattle.trace_top.specs.Answering.{RepliesTrace, IsTextReply, IsTrace};
ghost use Rattle.trace_top.specs.Tracing.{trace_program};

use crate::words::{Asked, read_trace_words};
use answer_io::{InputFault, fault_answer, lines_in, read_front, wcsp_answer};
use dcop_base::{Bytes, NoMemory, Problem, problem_is_whole};
use dcop_edge::Source;
use delivery_core::ReplayFault;
use log_check::start_for;
use minimised_problem::ProblemSolved;
use problem_text::{Names, ProblemFile};
use program_frame::{Question, Reply, Status, question_of};
use run_log::LogEvent;
use solve_printed::{LogRead, log_up_to, read_log};
use std::alloc::Global;
use trace_text::write_trace;

/// Finds the reply to words, and reads all that the source has left if the words are accepted.
///
/// The words are tested before anything is read.
pub(crate) fn reply_to<S: Source>(
    alloc: Global,
    words: &[String],
    source: &mut S,
) -> Result<Reply, NoMemory>
    ensures replied { IfOk result (IsReplied trace_program (map string_bytes words.now)
        (source_state (S.left source.old) (S.faults source.old) (S.gave source.old))
        (source_state (S.left source.new) (S.faults source.new) (S.gave source.new))) }
    ensures told { IfOk result IsShowable }
    ensures quiet { OnErr result (S.faults source.new ≡ S.faults source.old) }
    ensures taken { Took 0 (input_limit + read_limit)
        (source_state (S.left source.old) (S.faults source.old) (S.gave source.old))
        (source_state (S.left source.new) (S.faults source.new) (S.gave source.new)) }
{
    match question_of(alloc, read_trace_words(words), source)? {
        Question::Text { asked, bytes } => text_reply(alloc, asked, bytes.as_slice()),
        Question::Refused(refusal) => Ok(Reply::Refused(refusal)),
    }
}

/// The reply to all bytes of an input.
fn text_reply(alloc: Global, asked: Asked, bytes: &[u8]) -> Result<Reply, NoMemory>
    requires short { length bytes.now ≤ input_limit }
    ensures belongs { IfOk result (IsTextReply bytes.now asked (front_read asked.format bytes.now)) }
    ensures told { IfOk result IsShowable }
{
    match read_front(alloc, asked.format, bytes) {
        Ok(read) => {
            let (before, text) = bytes.split_at(read.used);
            report_trace(alloc, asked, read.file, text, lines_in(before))
        }
        Err(InputFault::Text { line, kind }) => { Ok(Reply::Refused(fault_answer(line, kind))) }
        Err(InputFault::Wcsp { line, kind }) => { Ok(Reply::Refused(wcsp_answer(line, kind))) }
        Err(InputFault::NoMemory) => Err(NoMemory),
    }
}

/// The reply to the text of a report on a file, which follows `before` lines of the input.
fn report_trace(
    alloc: Global,
    asked: Asked,
    file: ProblemFile,
    text: &[u8],
    before: u64,
) -> Result<Reply, NoMemory>
    requires few { before + length text.now ≤ input_limit }
    ensures belongs { IfOk result (RepliesTrace (declared_by file) before text.now asked) }
    ensures told { IfOk result IsShowable }
{
    whole_problem(&file);
    match read_log(alloc, &file, text, before)? {
        LogRead::Log { error, log } => {
            let last = Some(asked.to);
            traced(
                alloc,
                asked.from,
                file,
                error,
                log_up_to(log.as_slice(), last),
            )
        }
        LogRead::Refused(refusal) => Ok(Reply::Refused(refusal)),
    }
}

/// The problem of every file is whole. The type of a file that is read says so; this call only
/// makes it known.
fn whole_problem(file: &ProblemFile)
    ensures { IsProblem file.now.problem }
{
    problem_is_whole(&file.problem);
}

/// The reply to a trace of these events from the event with this number on, for a requested error.
fn traced(
    alloc: Global,
    from: u64,
    file: ProblemFile,
    error: u64,
    log: &[LogEvent],
) -> Result<Reply, NoMemory>
    requires error { error ≤ amount_limit }
    requires events { All (FitsEvent (length file.problem.sizes)) log.now }
    ensures belongs { IfOk result (IsTrace file from (start_state (agents_for file error)) log.now) }
    ensures told { IfOk result IsShowable }
{
    match trace_of(alloc, &file, from, error, log) {
        Ok(text) => Ok(Reply::Own {
            text,
            status: Status::Solved,
        }),
        Err(fault) => {
            let refusal = solve_printed::fault_answer(file.names, fault)?;
            Ok(Reply::Refused(refusal))
        }
    }
}

/// The text of the run of these events, from the start of the ADOPT agents of a file's problem
/// solved, on its depth-first tree and for a requested error.
fn trace_of(
    alloc: Global,
    file: &ProblemFile,
    from: u64,
    error: u64,
    log: &[LogEvent],
) -> Result<Bytes, ReplayFault>
    requires { error ≤ amount_limit }
    ensures { Traces file.now.names from (start_state (agents_for file.now error)) log.now result }
{
    let solved = ProblemSolved::of(alloc, file)?;
    trace_in(alloc, solved.problem(), &file.names, from, error, log)
}

/// The same for the agents of this problem.
fn trace_in(
    alloc: Global,
    problem: &Problem,
    names: &Names,
    from: u64,
    error: u64,
    log: &[LogEvent],
) -> Result<Bytes, ReplayFault>
    requires error { error ≤ amount_limit }
    requires named { length names.now ≡ length problem.now.sizes }
    ensures { Traces names.now from (start_state (adopt_agents problem.now (dfs problem.now) error))
        log.now result }
{
    let start = start_for(alloc, problem, error)?;
    write_trace(alloc, problem, &start, names, from, log)
}
