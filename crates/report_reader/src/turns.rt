//! The turns of a cut: their lines in order, up to the line `end`.

ghost use Rattle.std.specs.Prelude.{◌≡◌, ◌<◌, ◌≤◌, true, [], Some, length, IfOk};
ghost use Rattle.std.specs.List.{All, list_all};
ghost use Rattle.dcop_base.specs.Limits.{variable_limit};
ghost use Rattle.cost_table.specs.Slices.{ones_at};
ghost use Rattle.problem_text.specs.Lines.{words};
ghost use Rattle.problem_text.specs.Name.{is_name};
ghost use Rattle.run_log.specs.LogReading.{Reads};
ghost use Rattle.report_reader.specs.ReportLines.{one_line};
ghost use Rattle.report_reader.specs.Steps.{IsRead};
ghost use Rattle.report_reader.specs.TurnLine.{turn_line};
ghost use Rattle.report_reader.specs.TurnReading as reading;

use crate::head_line::{begins_with, is_only};
use crate::lines::{Lines, told_by};
use crate::turn_line::turn_of;
use crate::util_line::{lacks_util, parent_of, util_of};
use certificate_text::{CutList, Turn, Util, UtilList, first_tables};
use dcop_base::{MAX_VARIABLES, NoMemory, SizeList, ValList, VarId, product_of, sizes_of};
use problem_text::{LineEnd, Names, ReportFault, ReportKind, next_word, variable_of_word};
use std::alloc::Global;

/// The sizes that the lines of a cut must fit.
#[derive(Debug, Drop)]
pub struct CutSizes {
    /// Those of the cut variables.
    pub own: SizeList,
    /// Those of all variables in a slice, in which cut variables have size 1.
    pub slice: SizeList,
}

/// The sizes that the lines of a cut must fit: those of the cut variables, and those of all
/// variables in a slice, in which cut variables have size 1.
pub fn cut_sizes_of(alloc: Global, sizes: &[u16], cut: &[VarId]) -> Result<CutSizes, NoMemory>
    requires { All (λ v. v < length sizes.now) cut.now }
    ensures { IfOk result (λ s. s ≡ reading.cut_sizes sizes.now cut.now) }
{
    let own = sizes_of(alloc, sizes, cut)?;
    let slice = slice_sizes(alloc, sizes, cut)?;
    Ok(CutSizes { own, slice })
}

/// The sizes of all variables, with those of the cut variables replaced by 1.
fn slice_sizes(alloc: Global, sizes: &[u16], cut: &[VarId]) -> Result<SizeList, NoMemory>
    requires { All (λ v. v < length sizes.now) cut.now }
    ensures { IfOk result (λ slice. slice ≡ ones_at cut.now sizes.now) }
{
    let mut slice = Vec::from_slice(alloc, sizes)?;
    for var in cut {
        slice[var.0 as usize] = 1;
    }
    Ok(SizeList::from_vec(slice))
}

/// Reads the turns of a cut, and the line `end`.
pub fn read_turns(
    alloc: Global,
    lines: &mut Lines<'_>,
    names: &Names,
    sizes: &CutSizes,
) -> Result<CutList, ReportFault>
    requires named { list_all is_name names.now ≡ true }
    requires many { length names.now ≡ length sizes.now.slice }
    requires few { length names.now ≤ variable_limit }
    ensures { IsRead (reading.turns_from names.now sizes.now lines.old) result lines.new }
{
    let values = first_turn(alloc, lines, sizes)?;
    turns_behind(alloc, lines, names, sizes, values)
}

/// Reads the line of the first turn.
fn first_turn(
    alloc: Global,
    lines: &mut Lines<'_>,
    sizes: &CutSizes,
) -> Result<ValList, ReportFault>
    ensures { IsRead (one_line (turn_line sizes.now.own 0) lines.old) result lines.new }
{
    let line = lines.line()?;
    told_by(
        line.number,
        turn_of(alloc, sizes.own.as_slice(), 0, line.text),
    )
}

/// Reads the tables of the turn with these values, the turns after it, and the line `end`.
fn turns_behind(
    alloc: Global,
    lines: &mut Lines<'_>,
    names: &Names,
    sizes: &CutSizes,
    first: ValList,
) -> Result<CutList, ReportFault>
    requires named { list_all is_name names.now ≡ true }
    requires many { length names.now ≡ length sizes.now.slice }
    requires few { length names.now ≤ variable_limit }
    ensures { IsRead (reading.turns_read names.now sizes.now lines.old.over []
        (record { values = first; tables = [] }) lines.old.lines) result lines.new }
{
    let mut turns = Vec::new(alloc);
    let mut values = first;
    let mut tables = Vec::new(alloc);
    while let Some(line) = lines.next() {
        if is_only(line.text, b"end") {
            let last = turn_with(values, tables);
            return told_by(line.number, all_turns(names, sizes, turns, last));
        }
        if begins_with(line.text, b"turn") {
            let told = next_turn(
                alloc,
                names,
                sizes,
                turns.as_slice(),
                tables.as_slice(),
                line.text,
            );
            let next = told_by(line.number, told)?;
            turns.push(turn_with(values, tables))?;
            values = next;
            tables = Vec::new(alloc);
        } else {
            let told = next_table(
                alloc,
                names,
                sizes,
                turns.as_slice(),
                tables.as_slice(),
                line.text,
            );
            tables.push(told_by(line.number, told)?)?;
        }
    }
    Err(lines.no_end())
}

/// The turn with these values and tables.
fn turn_with(values: ValList, tables: Vec<Util>) -> Turn
    ensures { result ≡ record { values = values; tables = tables.items } }
{
    Turn {
        values,
        tables: UtilList::from_vec(tables),
    }
}

/// These turns and this one, which the line `end` follows.
fn all_turns(
    names: &Names,
    sizes: &CutSizes,
    turns: Vec<Turn>,
    last: Turn,
) -> Result<CutList, LineEnd<ReportKind>>
    requires { length names.now ≤ variable_limit }
    ensures { Reads result (reading.all_turns names.now sizes.now turns.items last) }
{
    let mut turns = turns;
    if lacks_util(last.tables.as_slice(), names.len())
        || turns.len() + 1 != product_of(sizes.own.as_slice())
    {
        return Err(LineEnd::Fault(ReportKind::BadLine));
    }
    turns.push(last)?;
    Ok(CutList::from_vec(turns))
}

/// The values that the line of a turn gives, after these turns and one with these tables.
fn next_turn(
    alloc: Global,
    names: &Names,
    sizes: &CutSizes,
    turns: &[Turn],
    tables: &[Util],
    text: &[u8],
) -> Result<ValList, LineEnd<ReportKind>>
    requires { length names.now ≤ variable_limit }
    ensures { Reads result (reading.turn_behind names.now sizes.now turns.now tables.now (words text.now)) }
{
    if lacks_util(tables, names.len()) {
        return Err(LineEnd::Fault(ReportKind::BadLine));
    }
    turn_of(alloc, sizes.own.as_slice(), turns.len() + 1, text)
}

/// The table that a line declares, if these are the tables of the lines before it, in the turn
/// after these turns.
fn next_table(
    alloc: Global,
    names: &Names,
    sizes: &CutSizes,
    turns: &[Turn],
    tables: &[Util],
    text: &[u8],
) -> Result<Util, LineEnd<ReportKind>>
    requires named { list_all is_name names.now ≡ true }
    requires many { length names.now ≡ length sizes.now.slice }
    ensures { Reads result (reading.table_in_turn names.now sizes.now turns.now tables.now (words text.now)) }
{
    if tells_other(names, first_tables(turns), text) {
        return Err(LineEnd::Fault(ReportKind::BadLine));
    }
    util_of(alloc, names, sizes.slice.as_slice(), tables, text)
}

/// Whether a line `util` gives another parent than these tables.
fn tells_other(names: &Names, utils: &[Util], text: &[u8]) -> bool
    requires { list_all is_name names.now ≡ true }
    ensures { result ≡ reading.tells_other names.now utils.now (words text.now) }
{
    let Some((_, rest)) = next_word(text) else {
        return false;
    };
    let Some((name, rest)) = next_word(rest) else {
        return false;
    };
    let Some((word, _)) = next_word(rest) else {
        return false;
    };
    let Some(var) = variable_of_word(names, name) else {
        return false;
    };
    let Some(parent) = parent_of(names, word) else {
        return false;
    };
    has_other(utils, var, parent)
}

/// Whether a variable's table among these has another parent than this one.
fn has_other(utils: &[Util], var: VarId, parent: Option<VarId>) -> bool
    ensures { result ≡ reading.has_other utils.now (Some var) (Some parent) }
{
    utils
        .iter()
        .any(|util| util.var == var && are_apart(util.parent, parent))
}

/// Whether two parents differ.
fn are_apart(one: Option<VarId>, other: Option<VarId>) -> bool
    ensures { result ≡ reading.are_apart one other }
{
    match (one, other) {
        (None, None) => false,
        (Some(one), Some(other)) => one != other,
        _ => true,
    }
}
