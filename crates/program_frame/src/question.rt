//! What a program has to answer.

ghost use Rattle.std.specs.Prelude.{◌≡◌, ◌+◌, IfOk, OnErr};
ghost use Rattle.dcop_base.specs.Limits.{input_limit};
ghost use Rattle.answer_io.specs.Input.{Took, read_limit, source_state};
ghost use Rattle.program_frame.specs.Questions.{IsQuestion, IsPlain};

use answer_io::{ReadEnd, fault_answer, read_all, words_answer};
use dcop_base::{Bytes, NoMemory};
use dcop_edge::Source;
use problem_text::TextKind;
use solve_report::Answer;
use solve_words::WordFault;
use std::alloc::Global;

/// What a program has to answer, after its words and its input were read.
#[derive(Debug, Drop)]
pub enum Question<A> {
    /// The words ask for this, and these are all bytes of the input.
    Text { asked: A, bytes: Bytes },
    /// The words are refused, or the input was not read whole. This is the answer of `dcop` to that.
    Refused(Answer),
}

/// Reads all that the source has left if words ask for something, and nothing if they are refused.
///
/// # Errors
///
/// [`NoMemory`] if memory runs out.
pub fn question_of<A: Copy, S: Source>(
    alloc: Global,
    asked: Result<A, WordFault>,
    source: &mut S,
) -> Result<Question<A>, NoMemory>
    ensures asked { IfOk result (IsQuestion asked
        (source_state (S.left source.old) (S.faults source.old) (S.gave source.old))
        (source_state (S.left source.new) (S.faults source.new) (S.gave source.new))) }
    ensures told { IfOk result IsPlain }
    ensures quiet { OnErr result (S.faults source.new ≡ S.faults source.old) }
    ensures taken { Took 0 (input_limit + read_limit)
        (source_state (S.left source.old) (S.faults source.old) (S.gave source.old))
        (source_state (S.left source.new) (S.faults source.new) (S.gave source.new)) }
{
    let asked = match asked {
        Ok(asked) => asked,
        Err(WordFault::Bad { at, kind }) => return Ok(Question::Refused(words_answer(at, kind))),
        Err(WordFault::NoMemory) => return Err(NoMemory),
    };
    match read_all(alloc, source) {
        Ok(bytes) => Ok(Question::Text { asked, bytes }),
        Err(ReadEnd::Failed) => Ok(Question::Refused(Answer::Read)),
        Err(ReadEnd::TooLong) => Ok(Question::Refused(fault_answer(0, TextKind::TooLong))),
        Err(ReadEnd::NoMemory) => Err(NoMemory),
    }
}
