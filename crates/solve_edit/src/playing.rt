//! The effect of one line.

ghost use Rattle.solve_edit.specs.Steps.{IsKindOf, IsLinePlayed};

use dpop_agent::Steps;
use edit_session::{Session, SetFault};
use edit_text::{EditKind, EditLine};
use problem_text::{Edited, LineEnd};
use std::sync::ledger::Ledger;

/// The effect of a line.
#[derive(Debug, Drop)]
pub(crate) enum Played {
    /// The cells of a table were changed.
    Edit,
    /// An optimum was found.
    Answer(Edited),
    /// It was the last line.
    End,
}

/// Performs what a line says.
pub(crate) fn play<L: Ledger>(
    session: &mut Session,
    line: EditLine,
    steps: &mut Steps<L>,
) -> Result<Played, LineEnd<EditKind>>
    ensures { IsLinePlayed session.old.state line result session.new.state }
{
    match line {
        EditLine::Set { table, cell, cost } => edited(session.set(table, cell, cost)),
        EditLine::Fill { table, cells } => edited(session.fill(table, &cells)),
        EditLine::Answer => {
            let answer = session.answer(steps)?;
            Ok(Played::Answer(answer))
        }
        EditLine::End => Ok(Played::End),
    }
}

/// The result of an edit, as the effect of its line.
fn edited(set: Result<(), SetFault>) -> Result<Played, LineEnd<EditKind>>
    ensures { IsKindOf set result }
{
    match set {
        Ok(()) => Ok(Played::Edit),
        Err(SetFault::NoTable) => Err(LineEnd::Fault(EditKind::NoTable)),
        Err(SetFault::NoCell) => Err(LineEnd::Fault(EditKind::NoCell)),
        Err(SetFault::CostTooLarge) => Err(LineEnd::Fault(EditKind::CostTooLarge)),
        Err(SetFault::SumTooLarge) => Err(LineEnd::Fault(EditKind::SumTooLarge)),
        Err(SetFault::NoMemory) => Err(LineEnd::NoMemory),
    }
}
