//! The lines of UTIL tables.

ghost use Rattle.std.specs.Prelude.{◌≡◌, ◌<◌, ◌≤◌, ◌-◌, ◌^◌, ◌==◌, ℕ, List, true, false, Some, None, length, map, position, slice_index, MatchOption, IfOk, IfSome};
ghost use Rattle.std.specs.List.{All, list_all, before_first};
ghost use Rattle.std.specs.Option.{option_map};
ghost use Rattle.std.specs.Str.{bytes_eq};
ghost use Rattle.dcop_base.specs.Limits.{variable_limit};
ghost use Rattle.dcop_base.specs.Table.{product};
ghost use Rattle.problem_text.specs.Lines.{words};
ghost use Rattle.problem_text.specs.Name.{is_name};
ghost use Rattle.problem_text.specs.Tables.{is_colon, named_by};
ghost use Rattle.problem_text.specs.declared.fault.ReportKind.TheVariants.{BadLine, BadNumber};
ghost use Rattle.run_log.specs.LogReading.{Reads};
ghost use Rattle.report_reader.specs.Told.{amounts_of, or_fails};
ghost use Rattle.report_reader.specs.UtilLine as lines;
ghost use Rattle.report_reader.specs.UtilWords.{IsLineOf, where_whole};

use crate::head_line::amount_of;
use certificate_text::Util;
use dcop_base::{CellList, MAX_VARIABLES, NoMemory, VarId, VarList, product_of, repeats, sizes_of};
use problem_text::{LineEnd, Names, ReportKind, is_word, next_word, past_colon, variable_of_word};
use std::alloc::Global;

/// The table that a line `util` declares, if these are the tables of the lines before it.
pub fn util_of(
    alloc: Global,
    names: &Names,
    sizes: &[u16],
    utils: &[Util],
    text: &[u8],
) -> Result<Util, LineEnd<ReportKind>>
    requires named { list_all is_name names.now ≡ true }
    requires many { length names.now ≡ length sizes.now }
    ensures { Reads result (lines.util_line names.now sizes.now utils.now (words text.now)) }
{
    match util_words_of(text) {
        Some(line) => util_with(alloc, names, sizes, utils, &line),
        None => Err(LineEnd::Fault(ReportKind::BadLine)),
    }
}

/// The words of a line `util NAME PARENT : SCOPE : CELLS`.
#[derive(Clone, Copy, Debug)]
pub struct UtilWords<'a> {
    pub name: &'a [u8],
    pub parent: &'a [u8],
    /// The scope, with the second `:` and the cells after it.
    pub scope: &'a [u8],
    pub cells: &'a [u8],
}

/// The words of a line; `None` exactly when the line does not have the form.
fn util_words_of(text: &[u8]) -> Option<UtilWords<'_>>
    ensures { IsLineOf (words text.now) result }
{
    let (first, rest) = next_word(text)?;
    let (name, rest) = next_word(rest)?;
    let (parent, rest) = next_word(rest)?;
    let (colon, scope) = next_word(rest)?;
    if !is_word(first, b"util") || !is_word(colon, b":") {
        return None;
    }
    let (_, cells) = past_colon(scope)?;
    Some(UtilWords {
        name,
        parent,
        scope,
        cells,
    })
}

/// The table that the words of a line give, after these tables.
fn util_with(
    alloc: Global,
    names: &Names,
    sizes: &[u16],
    utils: &[Util],
    line: &UtilWords<'_>,
) -> Result<Util, LineEnd<ReportKind>>
    requires named { list_all is_name names.now ≡ true }
    requires many { length names.now ≡ length sizes.now }
    ensures { Reads result (lines.util_parts names.now sizes.now utils.now line.now.name.now line.now.parent.now
        (before_first is_colon (words line.now.scope.now)) (words line.now.cells.now)) }
{
    let var = variable_of_word(names, line.name);
    let scope = scope_of(alloc, names, line.scope)?;
    if is_again(utils, &var) || repeats(scope.known.as_slice()) {
        return Err(LineEnd::Fault(ReportKind::BadLine));
    }
    let Some(var) = var else {
        return Err(LineEnd::Fault(ReportKind::UnknownName));
    };
    let Some(parent) = parent_of(names, line.parent) else {
        return Err(LineEnd::Fault(ReportKind::UnknownName));
    };
    if !scope.whole {
        return Err(LineEnd::Fault(ReportKind::UnknownName));
    }
    counted(alloc, sizes, var, parent, scope.known, line.cells)
}

/// Whether a word names a variable that has its table among these.
fn is_again(utils: &[Util], var: &Option<VarId>) -> bool
    ensures { result ≡ lines.is_again utils.now var.now }
{
    match var {
        None => false,
        Some(var) => has_util(utils, *var),
    }
}

/// Whether a variable has its table among these.
fn has_util(utils: &[Util], var: VarId) -> bool
    ensures { result ≡ lines.has_util utils.now var }
{
    utils.iter().any(|util| util.var == var)
}

/// Whether a variable below `count` has no table among these.
pub fn lacks_util(utils: &[Util], count: usize) -> bool
    requires { count ≤ variable_limit }
    ensures { result ≡ lines.lacks_util utils.now count }
{
    for var in 0..count {
        if !has_util(utils, VarId(var as u32)) {
            return true;
        }
    }
    false
}

/// The variables of a scope.
#[derive(Debug, Drop)]
pub struct Scope {
    /// The variables that words name.
    pub known: Vec<VarId>,
    /// Whether each word names one.
    pub whole: bool,
}

/// The scope that the words before the first `:` give.
fn scope_of(alloc: Global, names: &Names, text: &[u8]) -> Result<Scope, NoMemory>
    requires { list_all is_name names.now ≡ true }
    ensures known { IfOk result (λ s. s.known.items
        ≡ lines.known_among names.now (before_first is_colon (words text.now))) }
    ensures named { IfOk result (λ s. named_by names.now (before_first is_colon (words text.now))
        ≡ where_whole s.whole s.known.items) }
{
    let mut known = Vec::new(alloc);
    let mut whole = true;
    let mut rest = text;
    while let Some((word, after)) = next_word(rest) {
        if is_word(word, b":") {
            return Ok(Scope { known, whole });
        }
        match variable_of_word(names, word) {
            Some(var) => known.push(var)?,
            None => whole = false,
        }
        rest = after;
    }
    Ok(Scope { known, whole })
}

/// The parent that a word gives; `None` exactly when the word names no variable and is not `-`.
pub fn parent_of(names: &Names, word: &[u8]) -> Option<Option<VarId>>
    requires { list_all is_name names.now ≡ true }
    ensures { result ≡ lines.parent_told names.now word.now }
{
    if is_word(word, b"-") {
        return Some(None);
    }
    match variable_of_word(names, word) {
        Some(var) => Some(Some(var)),
        None => None,
    }
}

/// The table with this scope and with the cells that these words write.
fn counted(
    alloc: Global,
    sizes: &[u16],
    var: VarId,
    parent: Option<VarId>,
    scope: Vec<VarId>,
    text: &[u8],
) -> Result<Util, LineEnd<ReportKind>>
    requires { All (λ v. v < length sizes.now) scope.items }
    ensures { Reads result (lines.util_told sizes.now (Some var) (Some parent) (Some scope.items)
        (amounts_of (words text.now))) }
{
    let Some(count) = count_of(text) else {
        return Err(LineEnd::Fault(ReportKind::BadNumber));
    };
    if !fill(alloc, sizes, scope.as_slice(), count)? {
        return Err(LineEnd::Fault(ReportKind::CellCount));
    }
    let cells = cells_of(alloc, text, count)?;
    Ok(Util {
        var,
        parent,
        scope: VarList::from_vec(scope),
        cells,
    })
}

/// Whether `count` cells fill a table with this scope.
fn fill(alloc: Global, sizes: &[u16], scope: &[VarId], count: usize) -> Result<bool, NoMemory>
    requires within { All (λ v. v < length sizes.now) scope.now }
    requires few { count < 2 ^ 64 - 1 }
    ensures { IfOk result (λ full. full
        ≡ count == product (map (λ v. slice_index sizes.now v) scope.now)) }
{
    let own = sizes_of(alloc, sizes, scope)?;
    Ok(is_product(count, own.as_slice()))
}

/// Whether a number is the product of the sizes.
fn is_product(count: usize, sizes: &[u16]) -> bool
    requires { count < 2 ^ 64 - 1 }
    ensures { result ≡ count == product sizes.now }
{
    count == product_of(sizes)
}

/// How many numbers the words of a text write; `None` exactly when a word is not a number or is
/// above [`CAP`](dcop_base::CAP). It takes no memory, so cells are kept only if their number is
/// right.
fn count_of(text: &[u8]) -> Option<usize>
    ensures told { result ≡ option_map length (amounts_of (words text.now)) }
    ensures few { IfSome result (λ count. count ≤ length text.now) }
{
    let mut count: usize = 0;
    let mut rest = text;
    while let Some((word, after)) = next_word(rest) {
        if amount_of(word).is_none() {
            return None;
        }
        count += 1;
        rest = after;
    }
    Some(count)
}

/// The cells that the words of a text write; there are `count` of them.
fn cells_of(alloc: Global, text: &[u8], count: usize) -> Result<CellList, LineEnd<ReportKind>>
    ensures { Reads result (or_fails BadNumber (amounts_of (words text.now))) }
{
    let mut cells = Vec::with_capacity(alloc, count)?;
    let mut rest = text;
    while let Some((word, after)) = next_word(rest) {
        let Some(cell) = amount_of(word) else {
            return Err(LineEnd::Fault(ReportKind::BadNumber));
        };
        cells.push(cell)?;
        rest = after;
    }
    Ok(CellList::from_vec(cells))
}
