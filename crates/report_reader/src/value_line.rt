//! The lines of values.

ghost use Rattle.std.specs.Prelude.{◌≡◌, ◌≤◌, true, length, position};
ghost use Rattle.std.specs.List.{list_all};
ghost use Rattle.std.specs.Str.{bytes_eq};
ghost use Rattle.dcop_base.specs.Limits.{size_limit};
ghost use Rattle.problem_text.specs.Lines.{words};
ghost use Rattle.problem_text.specs.Name.{is_name};
ghost use Rattle.dcop_base.specs.Limits.{amount_limit};
ghost use Rattle.run_log.specs.EventLine.{number_within};
ghost use Rattle.run_log.specs.LogReading.{Reads};
ghost use Rattle.report_reader.specs.ValueLine.{value_below, value_told, value_line};

use crate::head_line::amount_of;
use dcop_base::{MAX_SIZE, Val};
use problem_text::{Labels, LineEnd, ReportKind, is_word, name_of, next_word};

/// The value that a line `value NAME V` gives the variable with this name, these value names and
/// this size.
pub fn value_of(
    text: &[u8],
    name: &str,
    labels: &Labels,
    size: u16,
) -> Result<Val, LineEnd<ReportKind>>
    requires few { length labels.now ≤ size_limit }
    requires named { list_all is_name labels.now ≡ true }
    ensures { Reads result (value_line name.now labels.now size (words text.now)) }
{
    let Some((first, rest)) = next_word(text) else {
        return Err(LineEnd::Fault(ReportKind::BadLine));
    };
    let Some((second, rest)) = next_word(rest) else {
        return Err(LineEnd::Fault(ReportKind::BadLine));
    };
    let Some((word, rest)) = next_word(rest) else {
        return Err(LineEnd::Fault(ReportKind::BadLine));
    };
    if next_word(rest).is_some() || !is_word(first, b"value") {
        return Err(LineEnd::Fault(ReportKind::BadLine));
    }
    if !is_word(second, name.as_bytes()) {
        return Err(LineEnd::Fault(ReportKind::UnknownName));
    }
    value_of_word(word, labels, size)
}

/// The value that a word gives: by name if there are value names, and by number otherwise.
fn value_of_word(word: &[u8], labels: &Labels, size: u16) -> Result<Val, LineEnd<ReportKind>>
    requires few { length labels.now ≤ size_limit }
    requires named { list_all is_name labels.now ≡ true }
    ensures { Reads result (value_told labels.now size word.now) }
{
    if labels.len() == 0 {
        return numbered(word, size);
    }
    match labelled(word, labels) {
        Some(value) => Ok(value),
        None => Err(LineEnd::Fault(ReportKind::UnknownName)),
    }
}

/// The value that a word writes as a number.
pub fn numbered(word: &[u8], size: u16) -> Result<Val, LineEnd<ReportKind>>
    ensures { Reads result (value_below size (number_within amount_limit word.now)) }
{
    let Some(number) = amount_of(word) else {
        return Err(LineEnd::Fault(ReportKind::BadNumber));
    };
    if number >= u64::from(size) {
        return Err(LineEnd::Fault(ReportKind::BadValue));
    }
    Ok(Val(number as u16))
}

/// The value that a word names; `None` exactly when no value has that name.
fn labelled(word: &[u8], labels: &Labels) -> Option<Val>
    requires few { length labels.now ≤ size_limit }
    requires named { list_all is_name labels.now ≡ true }
    ensures { result ≡ position (bytes_eq word.now) labels.now }
{
    match name_of(word) {
        Some(name) => labels.find_value(name),
        None => None,
    }
}
