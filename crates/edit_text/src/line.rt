//! One line of an edit session.

ghost use Rattle.std.specs.Prelude.{◌≡◌, Some, IfOk, IfErr, codes};
ghost use Rattle.problem_text.specs.Lines.{words};
ghost use Rattle.problem_text.specs.Tables.{numbers_of};
ghost use Rattle.edit_text.specs.EditLines.{IsRead, IsNumberFault, alone, set_line, fill_line, line_said, set_of};

use crate::kind::EditKind;
use dcop_base::{CellList, number_of_word};
use problem_text::{LineEnd, is_word, next_word};
use std::alloc::Global;

/// A line of an edit session.
#[derive(Debug, Drop)]
pub enum EditLine {
    /// Sets the cost of one cell of a table.
    Set { table: u64, cell: u64, cost: u64 },
    /// Replaces all cells of a table.
    Fill { table: u64, cells: CellList },
    /// Asks for the optimum.
    Answer,
    /// The last line.
    End,
}

/// What the words of a line ask for, or the kind of its fault.
///
/// # Errors
///
/// [`LineEnd::Fault`] with the line's fault: the line has none of the forms, or a word that must be
/// a number is not one. [`LineEnd::NoMemory`] if memory runs out.
pub fn read_edit_line(alloc: Global, text: &[u8]) -> Result<EditLine, LineEnd<EditKind>>
    ensures { IsRead (line_said (words text.now)) result }
{
    let Some((word, rest)) = next_word(text) else {
        return Err(LineEnd::Fault(EditKind::BadLine));
    };
    if is_word(word, b"set") {
        return faulted(set_line(rest));
    }
    if is_word(word, b"fill") {
        return fill_line(alloc, rest);
    }
    if is_word(word, b"answer") {
        return faulted(alone(EditLine::Answer, rest));
    }
    if is_word(word, b"end") {
        return faulted(alone(EditLine::End, rest));
    }
    Err(LineEnd::Fault(EditKind::BadLine))
}

/// The result of reading that needs no memory, as the result of reading that may run out of it.
fn faulted(said: Result<EditLine, EditKind>) -> Result<EditLine, LineEnd<EditKind>>
    ensures { IsRead said result }
{
    match said {
        Ok(line) => Ok(line),
        Err(kind) => Err(LineEnd::Fault(kind)),
    }
}

/// A line of one word, which no word follows.
fn alone(line: EditLine, rest: &[u8]) -> Result<EditLine, EditKind>
    ensures { result ≡ alone line (words rest.now) }
{
    match next_word(rest) {
        Some(_) => Err(EditKind::BadLine),
        None => Ok(line),
    }
}

/// The line `set` with these words after it.
fn set_line(text: &[u8]) -> Result<EditLine, EditKind>
    ensures { result ≡ set_line (words text.now) }
{
    let Some((table, text)) = next_word(text) else {
        return Err(EditKind::BadLine);
    };
    let Some((cell, text)) = next_word(text) else {
        return Err(EditKind::BadLine);
    };
    let Some((cost, text)) = next_word(text) else {
        return Err(EditKind::BadLine);
    };
    if next_word(text).is_some() {
        return Err(EditKind::BadLine);
    }
    set_of(
        number_of_word(table),
        number_of_word(cell),
        number_of_word(cost),
    )
}

/// The line `set` with these numbers, if all three words are numbers.
fn set_of(table: Option<u64>, cell: Option<u64>, cost: Option<u64>) -> Result<EditLine, EditKind>
    ensures { result ≡ set_of table cell cost }
{
    match (table, cell, cost) {
        (Some(table), Some(cell), Some(cost)) => Ok(EditLine::Set { table, cell, cost }),
        _ => Err(EditKind::BadNumber),
    }
}

/// The line `fill` with these words after it.
fn fill_line(alloc: Global, text: &[u8]) -> Result<EditLine, LineEnd<EditKind>>
    ensures { IsRead (fill_line (words text.now)) result }
{
    let Some((table, text)) = next_word(text) else {
        return Err(LineEnd::Fault(EditKind::BadLine));
    };
    let Some((colon, text)) = next_word(text) else {
        return Err(LineEnd::Fault(EditKind::BadLine));
    };
    if !is_word(colon, b":") {
        return Err(LineEnd::Fault(EditKind::BadLine));
    }
    let Some(table) = number_of_word(table) else {
        return Err(LineEnd::Fault(EditKind::BadNumber));
    };
    let cells = numbers_in(alloc, text)?;
    Ok(EditLine::Fill {
        table,
        cells: CellList::from_vec(cells),
    })
}

/// The numbers that the words of a text write.
fn numbers_in(alloc: Global, text: &[u8]) -> Result<Vec<u64>, LineEnd<EditKind>>
    ensures found { IfOk result (λ numbers. numbers_of (words text.now) ≡ Some numbers.items) }
    ensures bad { IfErr result (IsNumberFault (numbers_of (words text.now))) }
{
    let mut numbers = Vec::new(alloc);
    let mut rest = text;
    while let Some((word, after)) = next_word(rest) {
        let Some(number) = number_of_word(word) else {
            return Err(LineEnd::Fault(EditKind::BadNumber));
        };
        numbers.push(number)?;
        rest = after;
    }
    Ok(numbers)
}
