//! The lines of an edit session, taken in order.

ghost use Rattle.std.specs.Prelude.{◌≡◌, ℕ, ◌+◌, ◌≤◌, length};
ghost use Rattle.dcop_base.specs.Limits.{input_limit};
ghost use Rattle.problem_text.specs.Lines.{words};
ghost use Rattle.problem_text.specs.PlainLines.{plain_lines};
ghost use Rattle.solve_edit.specs.Editing.{line_behind};
ghost use Rattle.solve_edit.specs.Steps.{IsLineStep, IsRun};

use crate::playing::{Played, play};
use crate::stop::Stop;
use dpop_agent::Steps;
use edit_session::Session;
use edit_text::{EditKind, read_edit_line};
use problem_text::{Edited, EditedList, LineEnd, line_behind, next_plain_line};
use std::alloc::Global;
use std::sync::ledger::Ledger;

/// Performs what the line with this number says, and keeps an optimum that is found. Returns `true`
/// if it is the last line.
fn step<L: Ledger>(
    alloc: Global,
    session: &mut Session,
    text: &[u8],
    number: u64,
    answers: &mut Vec<Edited>,
    steps: &mut Steps<L>,
) -> Result<bool, Stop>
    ensures { IsLineStep (record { number = number; words = words text.now }) session.old.state
        session.new.state answers.old.items answers.new.items result }
{
    let line = match read_edit_line(alloc, text) {
        Ok(line) => line,
        Err(LineEnd::Fault(kind)) => return Err(Stop::Refused { line: number, kind }),
        Err(LineEnd::NoMemory) => return Err(Stop::NoMemory),
    };
    match play(session, line, steps) {
        Ok(Played::Edit) => Ok(false),
        Ok(Played::Answer(answer)) => {
            answers.push(answer)?;
            Ok(false)
        }
        Ok(Played::End) => Ok(true),
        Err(LineEnd::Fault(kind)) => Err(Stop::Refused { line: number, kind }),
        Err(LineEnd::NoMemory) => Err(Stop::NoMemory),
    }
}

/// The optima that the lines of a text request, or why the lines end early. `before` lines precede
/// the text.
pub(crate) fn run_lines<L: Ledger>(
    alloc: Global,
    session: &mut Session,
    text: &[u8],
    before: u64,
    steps: &mut Steps<L>,
) -> Result<EditedList, Stop>
    requires few { before + length text.now ≤ input_limit }
    ensures { IsRun session.old.state (line_behind before text.now)
        (plain_lines (before + 1) text.now) result session.new.state }
{
    let last = before + line_behind(text);
    let mut answers = Vec::new(alloc);
    let mut rest = text;
    let mut number = before + 1;
    while let Some(line) = next_plain_line(rest, number) {
        rest = line.after;
        number = line.number + 1;
        if step(alloc, session, line.text, line.number, &mut answers, steps)? {
            return match next_plain_line(rest, number) {
                Some(further) => Err(Stop::Refused {
                    line: further.number,
                    kind: EditKind::BadLine,
                }),
                None => Ok(EditedList::from_vec(answers)),
            };
        }
    }
    Err(Stop::Refused {
        line: last,
        kind: EditKind::NoEnd,
    })
}
