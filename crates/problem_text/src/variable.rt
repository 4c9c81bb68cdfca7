//! The lines of variables.

ghost use Rattle.std.specs.Prelude.{◌≡◌, ℕ, List, length, false, true, IfOk};
ghost use Rattle.problem_text.specs.Lines.{words};
ghost use Rattle.problem_text.specs.LineEnds.{Gives, GivesVariable};
ghost use Rattle.problem_text.specs.Declarations.{Declared, Declares, is_among, with_variable};
ghost use Rattle.problem_text.specs.Variables as lines;

use crate::draft::Draft;
use crate::fault::TextKind;
use crate::line_end::LineEnd;
use crate::name_word::{are_names, is_declared, labels_of, name_of};
use crate::names::Labels;
use crate::word::{is_word, next_word};
use dcop_base::{MAX_SIZE, MAX_VARIABLES, number_of_word};
use std::alloc::Global;

/// A variable as its line declares it.
#[derive(Debug, Drop)]
pub struct Variable<'a> {
    pub name: &'a str,
    pub labels: Labels,
    pub size: u16,
}

/// The variable that the words after `var` declare. Its name is new to the draft.
pub fn variable_of<'a>(
    alloc: Global,
    draft: &Draft,
    text: &'a [u8],
) -> Result<Variable<'a>, LineEnd<TextKind>>
    ensures gives { GivesVariable draft.now result (lines.var_line draft.now (words text.now)) }
    ensures fresh { IfOk result (λ v. is_among draft.now.names v.name.now ≡ false) }
{
    let Some((name, rest)) = next_word(text) else {
        return Err(LineEnd::Fault(TextKind::BadWord));
    };
    let Some((third, further)) = next_word(rest) else {
        return Err(LineEnd::Fault(TextKind::BadWord));
    };
    if draft.version == 2 && is_word(third, b":") {
        valued(alloc, draft, name, further)
    } else {
        sized(alloc, draft, name, third, further)
    }
}

/// The variable of `NAME : VALUES`.
fn valued<'a>(
    alloc: Global,
    draft: &Draft,
    name: &'a [u8],
    values: &[u8],
) -> Result<Variable<'a>, LineEnd<TextKind>>
    ensures gives { GivesVariable draft.now result
        (lines.with_values draft.now name.now (words values.now)) }
    ensures fresh { IfOk result (λ v. is_among draft.now.names v.name.now ≡ false) }
{
    let Some(name) = name_of(name) else {
        return Err(LineEnd::Fault(TextKind::BadWord));
    };
    if !are_names(values) {
        return Err(LineEnd::Fault(TextKind::BadWord));
    }
    if is_declared(&draft.names, name) {
        return Err(LineEnd::Fault(TextKind::NameTwice));
    }
    let Some(labels) = labels_of(alloc, values)? else {
        return Err(LineEnd::Fault(TextKind::NameTwice));
    };
    let size = size_of(draft.sizes.len(), labels.len() as u64)?;
    Ok(Variable { name, labels, size })
}

/// The variable of `NAME SIZE`.
fn sized<'a>(
    alloc: Global,
    draft: &Draft,
    name: &'a [u8],
    size: &[u8],
    further: &[u8],
) -> Result<Variable<'a>, LineEnd<TextKind>>
    ensures gives { GivesVariable draft.now result
        (lines.with_size draft.now name.now size.now (words further.now)) }
    ensures fresh { IfOk result (λ v. is_among draft.now.names v.name.now ≡ false) }
{
    if next_word(further).is_some() {
        return Err(LineEnd::Fault(TextKind::BadWord));
    }
    let Some(name) = name_of(name) else {
        return Err(LineEnd::Fault(TextKind::BadWord));
    };
    if is_declared(&draft.names, name) {
        return Err(LineEnd::Fault(TextKind::NameTwice));
    }
    let Some(size) = number_of_word(size) else {
        return Err(LineEnd::Fault(TextKind::BadNumber));
    };
    let size = size_of(draft.sizes.len(), size)?;
    Ok(Variable {
        name,
        labels: Labels::new(alloc),
        size,
    })
}

/// The size of one more variable, after `many` variables.
fn size_of(many: usize, size: u64) -> Result<u16, LineEnd<TextKind>>
    ensures { (d : Declared) → (name : List ℕ) → (values : List (List ℕ)) → length d.sizes ≡ many
        → Gives (λ s. Declares (with_variable d name values s)) result (lines.variable d name values size) }
{
    if many >= MAX_VARIABLES {
        return Err(LineEnd::Fault(TextKind::Problem { number: 10 }));
    }
    if size == 0 || size > MAX_SIZE as u64 {
        return Err(LineEnd::Fault(TextKind::Problem { number: 2 }));
    }
    Ok(size as u16)
}
