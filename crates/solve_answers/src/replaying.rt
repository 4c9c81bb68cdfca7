//! The answer of `replay`.

ghost use Rattle.std.specs.Prelude.{◌≡◌, ◌≤◌, length, IfOk};
ghost use Rattle.dcop_base.specs.Limits.{input_limit};
ghost use Rattle.answer_io.specs.Fronts.{front_read};
ghost use Rattle.solve_methods.specs.Goal.{TellsRight};
ghost use Rattle.solve_report.specs.AnswerText.{HasText};
ghost use Rattle.solve_answers.specs.Answering.{IsReplayAnswer};

use answer_io::{InputFault, fault_answer, lines_in, read_front, wcsp_answer};
use dcop_base::NoMemory;
use solve_printed::replay_answer;
use solve_report::Answer;
use solve_words::Format;
use std::alloc::Global;

/// The answer of `replay` on a text; it is about the first events of the log of the report after
/// the problem.
pub(crate) fn replay_behind(
    alloc: Global,
    format: Format,
    after: Option<u64>,
    bytes: &[u8],
) -> Result<Answer, NoMemory>
    requires short { length bytes.now ≤ input_limit }
    ensures belongs { IfOk result (IsReplayAnswer bytes.now after (front_read format bytes.now)) }
    ensures right { IfOk result TellsRight }
    ensures told { IfOk result HasText }
{
    match read_front(alloc, format, bytes) {
        Ok(read) => {
            let (before, text) = bytes.split_at(read.used);
            replay_answer(alloc, read.file, text, lines_in(before), after)
        }
        Err(InputFault::Text { line, kind }) => Ok(fault_answer(line, kind)),
        Err(InputFault::Wcsp { line, kind }) => Ok(wcsp_answer(line, kind)),
        Err(InputFault::NoMemory) => Err(NoMemory),
    }
}
