//! The reply to words and a source.

ghost use Rattle.std.specs.Prelude.{◌≡◌, ◌+◌, map, IfOk, OnErr, string_bytes};
ghost use Rattle.dcop_base.specs.Limits.{input_limit};
ghost use Rattle.dcop_base.specs.Whole.{IsProblem};
ghost use Rattle.problem_text.specs.Steps.{declared_by};
ghost use Rattle.answer_io.specs.Input.{Took, read_limit, source_state};
ghost use Rattle.answer_io.specs.Whole.{whole_read};
ghost use Rattle.program_frame.specs.Program.{IsReplied};
ghost use Rattle.program_frame.specs.Replies.{IsShowable};
ghost use Rattle.order_top.specs.Answering.{IsOrdered, IsTextReply, order_program};

use crate::words::{Asked, read_order_words};
use answer_io::{fault_answer, read_whole};
use dcop_base::{NoMemory, problem_is_whole};
use dcop_edge::Source;
use order_search::narrowed;
use problem_text::{ProblemFile, TextFault, write_problem};
use program_frame::{Question, Reply, Status, question_of};
use std::alloc::Global;

/// Finds the reply to words, and reads all that the source has left if the words are accepted.
///
/// The words are tested before anything is read.
pub(crate) fn reply_to<S: Source>(
    alloc: Global,
    words: &[String],
    source: &mut S,
) -> Result<Reply, NoMemory>
    ensures replied { IfOk result (IsReplied order_program (map string_bytes words.now)
        (source_state (S.left source.old) (S.faults source.old) (S.gave source.old))
        (source_state (S.left source.new) (S.faults source.new) (S.gave source.new))) }
    ensures told { IfOk result IsShowable }
    ensures quiet { OnErr result (S.faults source.new ≡ S.faults source.old) }
    ensures taken { Took 0 (input_limit + read_limit)
        (source_state (S.left source.old) (S.faults source.old) (S.gave source.old))
        (source_state (S.left source.new) (S.faults source.new) (S.gave source.new)) }
{
    match question_of(alloc, read_order_words(words), source)? {
        Question::Text { asked, bytes } => text_reply(alloc, asked, bytes.as_slice()),
        Question::Refused(refusal) => Ok(Reply::Refused(refusal)),
    }
}

/// The reply to all bytes of an input.
fn text_reply(alloc: Global, asked: Asked, bytes: &[u8]) -> Result<Reply, NoMemory>
    ensures belongs { IfOk result (IsTextReply asked (whole_read bytes.now)) }
    ensures told { IfOk result IsShowable }
{
    match read_whole(alloc, bytes) {
        Ok(file) => ordered(alloc, asked, file),
        Err(TextFault::Bad { line, kind }) => Ok(Reply::Refused(fault_answer(line, kind))),
        Err(TextFault::NoMemory) => Err(NoMemory),
    }
}

/// The canonical text of a file in the order that is found for it.
fn ordered(alloc: Global, asked: Asked, file: ProblemFile) -> Result<Reply, NoMemory>
    ensures belongs { IfOk result (IsOrdered asked (declared_by file)) }
    ensures told { IfOk result IsShowable }
{
    whole_problem(&file);
    let file = narrowed(alloc, file, asked.tries, asked.seed)?;
    Ok(Reply::Own {
        text: write_problem(alloc, &file)?,
        status: Status::Solved,
    })
}

/// The problem of every file is whole. The type of a file that is read says so; this call only
/// makes it known.
fn whole_problem(file: &ProblemFile)
    ensures { IsProblem file.now.problem }
{
    let problem = &file.problem;
    problem_is_whole(problem);
}
