//! The reader of a text: its lines in order, up to the line `end` or the first fault.

ghost use Rattle.std.specs.Prelude.{◌≡◌, ◌<◌, length, IfOk};
ghost use Rattle.problem_text.specs.Lines.{words};
ghost use Rattle.problem_text.specs.LineEnds.{Gives};
ghost use Rattle.problem_text.specs.Declarations.{Declares};
ghost use Rattle.problem_text.specs.Variables as lines;
ghost use Rattle.problem_text.specs.Tables.{table_line};
ghost use Rattle.problem_text.specs.Reading.{later_line, line_outcome};
ghost use Rattle.problem_text.specs.Steps.{IsStep, ReadsDraft, Reads, declared_by};

use crate::draft::Draft;
use crate::fault::{TextFault, TextKind};
use crate::file::{LabelList, ProblemFile, ReadFile};
use crate::header::{goal_of, version_of};
use crate::line::line_behind;
use crate::line_end::LineEnd;
use crate::table_line::table_of;
use crate::variable::variable_of;
use crate::word::{is_word, next_word};
use crate::word_line::next_line;
use dcop_base::{NoMemory, Problem, SizeList, TableList};
use std::alloc::Global;

/// The effect of a line on the draft.
#[derive(Debug, Drop)]
pub enum Step {
    /// It declares more.
    Declares(Draft),
    /// It is the line `end`.
    Ends(Draft),
}

/// The step of a line with words. `before` is how many lines with words precede it.
fn step_of(alloc: Global, draft: Draft, before: u64, text: &[u8]) -> Result<Step, LineEnd<TextKind>>
    ensures { IsStep draft result (line_outcome before draft (words text.now)) }
{
    if before > 0 {
        return later_step(alloc, draft, before == 1, text);
    }
    match version_of(text) {
        Some(version) => Ok(Step::Declares(Draft::new(alloc, version))),
        None => Err(LineEnd::Fault(TextKind::BadHeader)),
    }
}

/// The step of a line after the header.
fn later_step(
    alloc: Global,
    draft: Draft,
    is_second: bool,
    text: &[u8],
) -> Result<Step, LineEnd<TextKind>>
    ensures { IsStep draft result (later_line is_second draft (words text.now)) }
{
    let Some((first, further)) = next_word(text) else {
        return Err(LineEnd::Fault(TextKind::BadWord));
    };
    if is_word(first, b"var") {
        return Ok(Step::Declares(with_variable(alloc, draft, further)?));
    }
    if is_word(first, b"table") {
        return Ok(Step::Declares(with_table(alloc, draft, further)?));
    }
    if is_word(first, b"end") {
        return ended(draft, further);
    }
    if draft.version == 2 && is_word(first, b"goal") {
        return Ok(Step::Declares(with_goal(draft, is_second, further)?));
    }
    Err(LineEnd::Fault(TextKind::BadWord))
}

/// The draft with the variable that the words after `var` declare.
fn with_variable(alloc: Global, draft: Draft, text: &[u8]) -> Result<Draft, LineEnd<TextKind>>
    ensures { Gives (λ d. Declares d) result (lines.var_line draft (words text.now)) }
{
    let variable = variable_of(alloc, &draft, text)?;
    Ok(draft.with_variable(variable.name, variable.labels, variable.size)?)
}

/// The draft with the table that the words after `table` declare.
fn with_table(alloc: Global, draft: Draft, text: &[u8]) -> Result<Draft, LineEnd<TextKind>>
    ensures { Gives (λ d. Declares d) result (table_line draft (words text.now)) }
{
    let (table, told) = table_of(alloc, &draft, text)?;
    Ok(draft.with_table(table, told)?)
}

/// The draft with the goal that the words after `goal` name.
fn with_goal(draft: Draft, is_second: bool, text: &[u8]) -> Result<Draft, LineEnd<TextKind>>
    requires { draft.version ≡ 2 }
    ensures { Gives (λ d. Declares d) result (lines.goal_line is_second draft (words text.now)) }
{
    if !is_second {
        return Err(LineEnd::Fault(TextKind::BadWord));
    }
    match goal_of(text) {
        Some(goal) => Ok(draft.with_goal(goal)),
        None => Err(LineEnd::Fault(TextKind::BadWord)),
    }
}

/// The step of the line `end`, given the words that follow `end`.
fn ended(draft: Draft, text: &[u8]) -> Result<Step, LineEnd<TextKind>>
    ensures { IsStep draft result (lines.end_line draft (words text.now)) }
{
    if next_word(text).is_some() {
        return Err(LineEnd::Fault(TextKind::BadWord));
    }
    if draft.sizes.is_empty() {
        return Err(LineEnd::Fault(TextKind::Problem { number: 1 }));
    }
    Ok(Step::Ends(draft))
}

/// What the lines of a text declare, and how many bytes it has up to and including the line `end`.
fn draft_of(alloc: Global, bytes: &[u8]) -> Result<(Draft, usize), TextFault>
    ensures { ReadsDraft bytes.now result }
{
    let mut draft = Draft::new(alloc, 1);
    let mut before: u64 = 0;
    let mut number: u64 = 1;
    let mut used: usize = 0;
    let mut rest = bytes;
    while let Some(line) = next_line(rest, number, used) {
        match step_of(alloc, draft, before, line.text) {
            Ok(Step::Declares(more)) => draft = more,
            Ok(Step::Ends(whole)) => return Ok((whole, line.used)),
            Err(LineEnd::Fault(kind)) => {
                return Err(TextFault::Bad {
                    line: line.number,
                    kind,
                });
            }
            Err(LineEnd::NoMemory) => return Err(TextFault::NoMemory),
        }
        before += 1;
        number = line.number + 1;
        used = line.used;
        rest = line.after;
    }
    Err(TextFault::Bad {
        line: line_behind(bytes),
        kind: TextKind::NoEnd,
    })
}

/// The file of a complete draft.
fn file_of(alloc: Global, draft: Draft) -> Result<ProblemFile, NoMemory>
    requires { 0 < length draft.sizes }
    ensures { IfOk result (λ f. declared_by f ≡ draft) }
{
    let Draft {
        version,
        goal,
        names,
        labels,
        sizes,
        tables,
        cells: _,
        sum: _,
    } = draft;
    let problem = Problem::of_faultless(
        alloc,
        SizeList::from_vec(sizes),
        TableList::from_vec(tables),
    )?;
    Ok(ProblemFile {
        version,
        goal,
        names,
        labels: LabelList::from_vec(labels),
        problem,
    })
}

/// Reads a problem text up to its line `end`. The bytes after that line are not examined.
///
/// # Errors
///
/// [`TextFault::Bad`] with the line and the kind of the first fault, which is of kind 1 to 7;
/// [`TextFault::NoMemory`] if memory runs out.
pub fn read_problem(alloc: Global, bytes: &[u8]) -> Result<ReadFile, TextFault>
    ensures { Reads bytes.now result }
{
    let (draft, used) = draft_of(alloc, bytes)?;
    let file = file_of(alloc, draft)?;
    Ok(ReadFile { file, used })
}
