//! The answer to words and a source.

ghost use Rattle.std.specs.Prelude.{◌≡◌, ◌+◌, ◌<◌, ◌≤◌, length, map, IfOk, OnErr, string_bytes};
ghost use Rattle.dcop_base.specs.Limits.{input_limit};
ghost use Rattle.solve_report.specs.AnswerText.{HasText};
ghost use Rattle.problem_text.specs.Steps.{declared_by};
ghost use Rattle.solve_methods.specs.Goal.{TellsRight};
ghost use Rattle.answer_io.specs.Input.{Took, read_limit, source_state};
ghost use Rattle.solve_agents.specs.Wiring.{HasUntrustedWire};
ghost use Rattle.solve_answers.specs.Answering.{IsFileAnswer, IsTextAnswer, IsReportAnswer, IsTaskAnswer, IsUpgraded};
ghost use Rattle.solve_answers.specs.Nodes.{AskForNodes, IsAnswerIn, IsAnswerRead, IsTaskAnswerIn, TellsLinks};
ghost use Rattle.solve_answers.specs.Served.{IsTaskInRange, IsFileTaskInRange};
ghost use Rattle.solve_answers.specs.Answered.{Answered};
ghost use Rattle.answer_io.specs.InputTold.{told_of};
ghost use Rattle.answer_io.specs.Gives.{IsInput};
ghost use Rattle.answer_io.specs.Inputs.{input_read};
ghost use Rattle.answer_io.specs.Fronts.{front_read};

use crate::cutting::by_cut;
use crate::drilling::unread_answer;
use crate::editing::edits_behind;
use crate::methods::{by_adopt, by_auto, by_dpop, by_search};
use crate::replaying::replay_behind;
use crate::task::{FileTask, Task, nodes_of, workers_of};
use answer_io::{
    InputFault, MAX_INPUT, ReadEnd, ReadInput, fault_answer, lines_in, read_all, read_front,
    read_input, wcsp_answer, words_answer,
};
use dcop_base::{Bytes, NoMemory};
use dcop_edge::{Gate, Source};
use problem_text::{ProblemFile, TextKind};
use solve_agents::Crew;
use solve_methods::{Asked, plain_answer};
use solve_printed::check_answer;
use solve_report::Answer;
use solve_words::{Format, WordFault, WordKind, read_words};
use std::alloc::{AllocGlobal, Global};
use std::net::Net;
use std::random::RandomSource;
use std::sync::Wait;
use std::thread::Threads;
use std::time::Clock;
use wire_pump::Dialer;

/// Finds the answer to words, and reads all that the source has left if they need an input.
///
/// The words are tested before anything is read.
pub fn answer_of<R, S, G, D>(
    rt: &R,
    alloc: Global,
    words: &[String],
    source: &mut S,
    gate: &G,
    dialer: &mut D,
) -> Result<Answer, NoMemory>
where
    R: Threads + Wait + Clock + RandomSource + Net + AllocGlobal + Sync,
    S: Source,
    G: Gate,
    D: Dialer,
    ensures answered { IfOk result (Answered (map string_bytes words.now)
        (source_state (S.left source.old) (S.faults source.old) (S.gave source.old))
        (source_state (S.left source.new) (S.faults source.new) (S.gave source.new))) }
    ensures told { IfOk result HasText }
    ensures links { TellsLinks (AskForNodes (map string_bytes words.now)) (HasUntrustedWire D.W.told (D.is_honest dialer.old)) (D.faults dialer.old) (D.faults dialer.new) result }
    ensures quiet { OnErr result (S.faults source.new ≡ S.faults source.old) }
    ensures taken { Took 0 (input_limit + read_limit)
        (source_state (S.left source.old) (S.faults source.old) (S.gave source.old))
        (source_state (S.left source.new) (S.faults source.new) (S.gave source.new)) }
{
    let command = match read_words(alloc, words) {
        Ok(command) => command,
        Err(WordFault::Bad { at, kind }) => return Ok(words_answer(at, kind)),
        Err(WordFault::NoMemory) => return Err(NoMemory),
    };
    let workers = workers_of(&command);
    let nodes = nodes_of(&command);
    let crew = Crew {
        rt,
        gate,
        workers,
        nodes,
    };
    let Some(task) = Task::of(&command) else {
        return unread_answer(&crew, alloc, dialer, &command);
    };
    match read_all(alloc, source) {
        Ok(bytes) => task_answer(&crew, alloc, dialer, task, bytes),
        Err(ReadEnd::Failed) => Ok(Answer::Read),
        Err(ReadEnd::TooLong) => Ok(fault_answer(0, TextKind::TooLong)),
        Err(ReadEnd::NoMemory) => Err(NoMemory),
    }
}

/// The answer to a task on all bytes of an input.
fn task_answer<R, D, G>(
    crew: &Crew<R, G>,
    alloc: Global,
    dialer: &mut D,
    task: Task,
    bytes: Bytes,
) -> Result<Answer, NoMemory>
where
    R: Threads + Wait + Clock + RandomSource + Net + AllocGlobal + Sync,
    D: Dialer,
    G: Gate,
    requires range { IsTaskInRange task }
    requires short { length bytes ≤ input_limit }
    ensures belongs { IfOk result (IsTaskAnswerIn crew.now.nodes task bytes) }
    ensures links { TellsLinks (1 < crew.now.nodes) (HasUntrustedWire D.W.told (D.is_honest dialer.old)) (D.faults dialer.old) (D.faults dialer.new) result }
    ensures right { IfOk result TellsRight }
    ensures told { IfOk result HasText }
{
    match task {
        Task::File { format, task } => text_answer(crew, alloc, dialer, format, task, bytes),
        Task::Check { format } => report_answer(alloc, format, bytes.as_slice()),
        Task::Replay { format, after } => replay_behind(alloc, format, after, bytes.as_slice()),
        Task::Edit => edits_behind(crew, alloc, bytes.as_slice()),
    }
}

/// The answer to a task on the problem of a whole input.
fn text_answer<R, D, G>(
    crew: &Crew<R, G>,
    alloc: Global,
    dialer: &mut D,
    format: Format,
    task: FileTask,
    bytes: Bytes,
) -> Result<Answer, NoMemory>
where
    R: Threads + Wait + Clock + RandomSource + Net + AllocGlobal + Sync,
    D: Dialer,
    G: Gate,
    requires range { IsFileTaskInRange task }
    ensures belongs { IfOk result (IsAnswerRead task crew.now.nodes (input_read format bytes) (IsTextAnswer task (input_read format bytes))) }
    ensures links { TellsLinks (1 < crew.now.nodes) (HasUntrustedWire D.W.told (D.is_honest dialer.old)) (D.faults dialer.old) (D.faults dialer.new) result }
    ensures right { IfOk result TellsRight }
    ensures told { IfOk result HasText }
{
    match told_by(alloc, format, bytes) {
        Ok(read) => file_answer(crew, alloc, dialer, task, read),
        Err(InputFault::Text { line, kind }) => Ok(fault_answer(line, kind)),
        Err(InputFault::Wcsp { line, kind }) => Ok(wcsp_answer(line, kind)),
        Err(InputFault::NoMemory) => Err(NoMemory),
    }
}

/// Reads an input as a problem. The bytes are freed as soon as they are read, so that solving can
/// use their memory.
fn told_by(alloc: Global, format: Format, bytes: Bytes) -> Result<ReadInput, InputFault>
    ensures { IsInput (input_read format bytes) result }
{
    read_input(alloc, format, bytes.as_slice())
}

/// The answer to a task on a file, with the bar of a WCSP text.
pub(crate) fn file_answer<R, D, G>(
    crew: &Crew<R, G>,
    alloc: Global,
    dialer: &mut D,
    task: FileTask,
    read: ReadInput,
) -> Result<Answer, NoMemory>
where
    R: Threads + Wait + Clock + RandomSource + Net + AllocGlobal + Sync,
    D: Dialer,
    G: Gate,
    requires range { IsFileTaskInRange task }
    ensures belongs { IfOk result (IsAnswerIn task crew.now.nodes (declared_by read.file) (IsFileAnswer task (told_of read.file read.bar))) }
    ensures links { TellsLinks (1 < crew.now.nodes) (HasUntrustedWire D.W.told (D.is_honest dialer.old)) (D.faults dialer.old) (D.faults dialer.new) result }
    ensures right { IfOk result TellsRight }
    ensures told { IfOk result HasText }
{
    let ReadInput { file, bar } = read;
    match task {
        FileTask::Plain => plain_answer(alloc, file),
        FileTask::Dpop { certified } => by_dpop(crew, alloc, dialer, file, certified),
        FileTask::Adopt {
            error,
            budget,
            certified,
        } => {
            let asked = Asked {
                error,
                budget,
                certified,
            };
            by_adopt(crew, alloc, dialer, file, asked)
        }
        FileTask::Auto {
            error,
            budget,
            certified,
        } => {
            let asked = Asked {
                error,
                budget,
                certified,
            };
            by_auto(crew, alloc, dialer, file, asked)
        }
        FileTask::Cut { limit, certified } => by_cut(crew, alloc, file, limit, certified),
        FileTask::Tree => by_search(crew, alloc, file),
        FileTask::Upgrade => Ok(upgrade_answer(file, bar)),
    }
}

/// The answer of `upgrade` on a file, with the bar of a WCSP text.
fn upgrade_answer(file: ProblemFile, bar: Option<u64>) -> Answer
    ensures belongs { IsUpgraded (declared_by file) bar result }
    ensures right { TellsRight result }
    ensures told { HasText result }
{
    let file = upgraded(file);
    match bar {
        None => Answer::Upgraded { file },
        Some(bar) => Answer::UpgradedWcsp { bar, file },
    }
}

/// The answer of `check` on a text; it is about the report after the problem.
fn report_answer(alloc: Global, format: Format, bytes: &[u8]) -> Result<Answer, NoMemory>
    requires short { length bytes.now ≤ input_limit }
    ensures belongs { IfOk result (IsReportAnswer bytes.now (front_read format bytes.now)) }
    ensures right { IfOk result TellsRight }
    ensures told { IfOk result HasText }
{
    match read_front(alloc, format, bytes) {
        Ok(read) => {
            let (before, text) = bytes.split_at(read.used);
            check_answer(alloc, read.file, text, lines_in(before))
        }
        Err(InputFault::Text { line, kind }) => Ok(fault_answer(line, kind)),
        Err(InputFault::Wcsp { line, kind }) => Ok(wcsp_answer(line, kind)),
        Err(InputFault::NoMemory) => Err(NoMemory),
    }
}

/// The file with version 2 and all else the same.
fn upgraded(file: ProblemFile) -> ProblemFile
    ensures { result ≡ record file { version = 2 } }
{
    let ProblemFile {
        version: _,
        goal,
        names,
        labels,
        problem,
    } = file;
    ProblemFile {
        version: 2,
        goal,
        names,
        labels,
        problem,
    }
}
