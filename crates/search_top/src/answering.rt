//! The reply to words and a source.

ghost use Rattle.std.specs.Prelude.{◌≡◌, ◌≢◌, ◌+◌, map, IfOk, OnErr, string_bytes};
ghost use Rattle.dcop_base.specs.Limits.{input_limit};
ghost use Rattle.problem_text.specs.Steps.{declared_by};
ghost use Rattle.answer_io.specs.Input.{Took, read_limit, source_state};
ghost use Rattle.answer_io.specs.Inputs.{input_read};
ghost use Rattle.program_frame.specs.Program.{IsReplied};
ghost use Rattle.program_frame.specs.Replies.{IsShowable};
ghost use Rattle.search_stages.specs.Asked.{IsServed};
ghost use Rattle.search_top.specs.Answering.{IsFileReply, IsTextReply, search_program, status_of_ending};

use crate::reporting::report_on;
use crate::words::read_search_words;
use crate::writing::write_search;
use answer_io::{InputFault, fault_answer, read_input, wcsp_answer};
use dcop_base::NoMemory;
use dcop_edge::Source;
use problem_text::ProblemFile;
use program_frame::{Question, Reply, Status, question_of};
use search_stages::{Asked, SearchEnding};
use std::alloc::Global;

/// The reply to words and, if they are accepted, to all that is left in the source. The words are
/// tested before anything is read.
pub(crate) fn reply_to<S: Source>(
    alloc: Global,
    words: &[String],
    source: &mut S,
) -> Result<Reply, NoMemory>
    ensures replied { IfOk result (IsReplied search_program (map string_bytes words.now)
        (source_state (S.left source.old) (S.faults source.old) (S.gave source.old))
        (source_state (S.left source.new) (S.faults source.new) (S.gave source.new))) }
    ensures told { IfOk result IsShowable }
    ensures quiet { OnErr result (S.faults source.new ≡ S.faults source.old) }
    ensures taken { Took 0 (input_limit + read_limit)
        (source_state (S.left source.old) (S.faults source.old) (S.gave source.old))
        (source_state (S.left source.new) (S.faults source.new) (S.gave source.new)) }
{
    match question_of(alloc, read_search_words(words), source)? {
        Question::Text { asked, bytes } => text_reply(alloc, asked, bytes.as_slice()),
        Question::Refused(refusal) => Ok(Reply::Refused(refusal)),
    }
}

/// The reply to all bytes of an input.
fn text_reply(alloc: Global, asked: Asked, bytes: &[u8]) -> Result<Reply, NoMemory>
    requires { IsServed asked }
    ensures belongs { IfOk result (IsTextReply asked (input_read asked.format bytes.now)) }
    ensures told { IfOk result IsShowable }
{
    match read_input(alloc, asked.format, bytes) {
        Ok(read) => file_reply(alloc, asked, &read.file),
        Err(InputFault::Text { line, kind }) => Ok(Reply::Refused(fault_answer(line, kind))),
        Err(InputFault::Wcsp { line, kind }) => Ok(Reply::Refused(wcsp_answer(line, kind))),
        Err(InputFault::NoMemory) => Err(NoMemory),
    }
}

/// The report of a search on a file.
fn file_reply(alloc: Global, asked: Asked, file: &ProblemFile) -> Result<Reply, NoMemory>
    requires { IsServed asked }
    ensures belongs { IfOk result (IsFileReply asked (declared_by file.now)) }
    ensures told { IfOk result IsShowable }
{
    let report = report_on(alloc, file, asked)?;
    Ok(Reply::Own {
        text: write_search(alloc, &report, file)?,
        status: status_of(report.ending),
    })
}

/// The status of an ending; [`Status::No`] if no assignment is better.
fn status_of(ending: SearchEnding) -> Status
    ensures same { result ≡ status_of_ending ending }
    ensures some { result ≢ Status.NoMemory }
{
    match ending {
        SearchEnding::Solved => Status::Solved,
        SearchEnding::Spent => Status::Spent,
        SearchEnding::NoneBetter => Status::No,
    }
}
