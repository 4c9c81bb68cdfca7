//! The answer of `edit`.

ghost use Rattle.std.specs.Prelude.{◌+◌, ◌≤◌, length, IfOk};
ghost use Rattle.dcop_base.specs.Limits.{input_limit};
ghost use Rattle.problem_text.specs.Steps.{declared_by};
ghost use Rattle.answer_io.specs.Fronts.{front_read};
ghost use Rattle.solve_edit.specs.Editing.{AnswersEdit};
ghost use Rattle.solve_methods.specs.Goal.{TellsRight};
ghost use Rattle.solve_report.specs.AnswerText.{HasText};
ghost use Rattle.solve_answers.specs.Answering.{IsEditsAnswer};

use answer_io::{InputFault, fault_answer, lines_in, read_front, wcsp_answer};
use dcop_base::NoMemory;
use dcop_edge::Gate;
use problem_text::ProblemFile;
use solve_agents::{Crew, tree_for};
use solve_edit::edit_answer;
use solve_report::Answer;
use solve_words::Format;
use std::alloc::Global;
use std::thread::Threads;

/// The answer of `edit` on a text; it is about the edit lines after the problem.
pub(crate) fn edits_behind<R: Threads + Sync, G: Gate>(
    crew: &Crew<R, G>,
    alloc: Global,
    bytes: &[u8],
) -> Result<Answer, NoMemory>
    requires short { length bytes.now ≤ input_limit }
    ensures belongs { IfOk result (IsEditsAnswer bytes.now (front_read Format.Dcop bytes.now)) }
    ensures right { IfOk result TellsRight }
    ensures told { IfOk result HasText }
{
    match read_front(alloc, Format::Dcop, bytes) {
        Ok(read) => {
            let (before, text) = bytes.split_at(read.used);
            edits_on(crew, alloc, read.file, text, lines_in(before))
        }
        Err(InputFault::Text { line, kind }) => Ok(fault_answer(line, kind)),
        Err(InputFault::Wcsp { line, kind }) => Ok(wcsp_answer(line, kind)),
        Err(InputFault::NoMemory) => Err(NoMemory),
    }
}

/// The answer to edit lines on a file, which follow `before` lines of the input, over the tree that
/// the agents find for the problem solved.
fn edits_on<R: Threads + Sync, G: Gate>(
    crew: &Crew<R, G>,
    alloc: Global,
    file: ProblemFile,
    text: &[u8],
    before: u64,
) -> Result<Answer, NoMemory>
    requires few { before + length text.now ≤ input_limit }
    ensures belongs { IfOk result (AnswersEdit (declared_by file) before text.now) }
    ensures right { IfOk result TellsRight }
    ensures told { IfOk result HasText }
{
    let tree = tree_for(crew, alloc, &file)?;
    edit_answer(alloc, file, tree, text, before)
}
