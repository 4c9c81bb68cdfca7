//! The lines of turns.

ghost use Rattle.std.specs.Prelude.{◌≡◌, ◌<◌, ◌-◌, ◌^◌, ◌==◌, length, min};
ghost use Rattle.dcop_base.specs.Table.{cell_place};
ghost use Rattle.problem_text.specs.Lines.{words};
ghost use Rattle.run_log.specs.LogReading.{Reads};
ghost use Rattle.report_reader.specs.TurnLine.{values_told, numbered, turn_line};

use crate::value_line::numbered;
use dcop_base::{Val, ValList};
use problem_text::{LineEnd, ReportKind, is_word, next_word};
use std::alloc::Global;

/// The values that a line `turn VALUES` gives cut variables of these sizes, if the turn with this
/// number comes next. Turns count from 0, in lexicographic order of their values.
pub fn turn_of(
    alloc: Global,
    sizes: &[u16],
    number: usize,
    text: &[u8],
) -> Result<ValList, LineEnd<ReportKind>>
    requires { number < 2 ^ 64 - 1 }
    ensures { Reads result (turn_line sizes.now number (words text.now)) }
{
    let Some((first, rest)) = next_word(text) else {
        return Err(LineEnd::Fault(ReportKind::BadLine));
    };
    if !is_word(first, b"turn") || word_count(rest) != sizes.len() {
        return Err(LineEnd::Fault(ReportKind::BadLine));
    }
    let values = values_of(alloc, sizes, rest)?;
    if !is_number(number, sizes, values.as_slice()) {
        return Err(LineEnd::Fault(ReportKind::BadLine));
    }
    Ok(values)
}

/// How many words a text has.
fn word_count(text: &[u8]) -> usize
    ensures { result ≡ length (words text.now) }
{
    let mut count: usize = 0;
    let mut rest = text;
    while let Some((_, after)) = next_word(rest) {
        count += 1;
        rest = after;
    }
    count
}

/// The values that the words of a text give; each is below the corresponding size.
fn values_of(alloc: Global, sizes: &[u16], text: &[u8]) -> Result<ValList, LineEnd<ReportKind>>
    ensures { Reads result (values_told sizes.now (words text.now)) }
{
    let mut values = Vec::new(alloc);
    let mut rest = text;
    for size in sizes {
        let Some((word, after)) = next_word(rest) else {
            return Ok(ValList::from_vec(values));
        };
        let value = numbered(word, *size)?;
        values.push(value)?;
        rest = after;
    }
    Ok(ValList::from_vec(values))
}

/// Whether a number is that of the turn with these values.
fn is_number(number: usize, sizes: &[u16], values: &[Val]) -> bool
    requires few { number < 2 ^ 64 - 1 }
    requires many { length values.now ≡ length sizes.now }
    ensures { result ≡ cell_place sizes.now values.now == number }
{
    number == number_of(sizes, values)
}

/// The number of the turn with these values, or [`usize::MAX`] if it is not less.
fn number_of(sizes: &[u16], values: &[Val]) -> usize
    requires { length values.now ≡ length sizes.now }
    ensures { result ≡ min (cell_place sizes.now values.now) usize.MAX }
{
    let mut number: usize = 0;
    for place in 0..sizes.len() {
        let value = values[place];
        number = number
            .saturating_mul(usize::from(sizes[place]))
            .saturating_add(usize::from(value.0));
    }
    number
}
