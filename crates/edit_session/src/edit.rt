//! Replacing the cells of a table.

ghost use Rattle.std.specs.Prelude.{◌≡◌, ℕ, ◌-◌, ◌<◌, ◌≤◌, None, Some, All, IfOk, OnOk, OnErr, MatchOption, MatchResult, length, map, nat_lt, option_map, slice_index_or, slice_set};
ghost use Rattle.std.specs.List.{list_any};
ghost use Rattle.dcop_base.specs.Limits.{amount_limit, cost_limit};
ghost use Rattle.dcop_base.specs.Problem.{Dcop};
ghost use Rattle.dcop_base.specs.Table.{greatest, table_fault};
ghost use Rattle.dcop_base.specs.Faults.{greatest_sum};
ghost use Rattle.dcop_base.specs.Whole.{IsProblem};
ghost use Rattle.dcop_optimum.specs.Goal.{top_of};
ghost use Rattle.edit_session.specs.Edits.{no_table, recelled, with_cells};
ghost use Rattle.edit_session.specs.Faults.{IsEditFaultOf, IsReplacement, cell_fault, cells_fault, cells_set, cells_in};
ghost use Rattle.edit_session.specs.State.{edited_file};
ghost use Rattle.edit_session.specs.Session.{turned_cells};

use crate::fault::SetFault;
use dcop_base::{CAP, CellList, MAX_COST, NoMemory, Problem, Table, TableList, problem_is_whole};
use problem_text::ProblemFile;
use std::alloc::Global;
use std::mem;

/// The cells of a table; `None` exactly when there is no such table.
fn cells_at(tables: &[Table], table: u64) -> Option<&[u64]>
    ensures { MatchOption result (length tables.now ≤ table)
        (λ cells. (table < length tables.now)
        × (cells.now ≡ cells_in tables.now table)) }
{
    if table >= tables.len() as u64 {
        return None;
    }
    let sought = &tables[table as usize];
    Some(sought.cells.as_slice())
}

/// The problem of a file is whole. Reading a field of the file shows this; the call does no more.
pub(crate) fn file_is_whole(file: &ProblemFile)
    ensures { IsProblem file.now.problem }
{
    problem_is_whole(&file.problem);
}

/// The cells of a table of a file with one of them set to this cost, or the first fault of this
/// edit.
pub(crate) fn set_cells(
    alloc: Global,
    file: &ProblemFile,
    table: u64,
    cell: u64,
    cost: u64,
) -> Result<Vec<u64>, SetFault>
    ensures told { MatchResult result
        (λ cells. (cell_fault file.now.problem.tables table cell cost ≡ None)
        × (cells.items ≡ cells_set file.now.problem.tables table cell cost))
        (IsEditFaultOf (cell_fault file.now.problem.tables table cell cost)) }
    ensures fits { IfOk result
        (λ cells. IsReplacement file.now.problem.tables table cells.items) }
{
    let problem = &file.problem;
    problem_is_whole(problem);
    let cells = cells_set(alloc, problem.tables.as_slice(), table, cell, cost)?;
    Ok(cells)
}

/// A copy of these cells if they may replace those of a table of a file, or the first fault of this
/// edit.
pub(crate) fn fill_cells(
    alloc: Global,
    file: &ProblemFile,
    table: u64,
    cells: &CellList,
) -> Result<Vec<u64>, SetFault>
    ensures told { MatchResult result
        (λ copy. (cells_fault file.now.problem.tables table cells.now ≡ None)
        × (copy.items ≡ cells.now))
        (IsEditFaultOf (cells_fault file.now.problem.tables table cells.now)) }
    ensures fits { IfOk result
        (λ copy. IsReplacement file.now.problem.tables table copy.items) }
{
    let problem = &file.problem;
    let copy = cells_for(alloc, problem.tables.as_slice(), table, cells.as_slice())?;
    Ok(copy)
}

/// The cells of a table with one of them set to this cost, or the first fault of this edit.
fn cells_set(
    alloc: Global,
    tables: &[Table],
    table: u64,
    cell: u64,
    cost: u64,
) -> Result<Vec<u64>, SetFault>
    ensures { MatchResult result
        (λ cells. (cell_fault tables.now table cell cost ≡ None)
        × (cells.items ≡ cells_set tables.now table cell cost))
        (IsEditFaultOf (cell_fault tables.now table cell cost)) }
{
    let Some(old) = cells_at(tables, table) else {
        return Err(SetFault::NoTable);
    };
    if cell >= old.len() as u64 {
        return Err(SetFault::NoCell);
    }
    if cost > MAX_COST {
        return Err(SetFault::CostTooLarge);
    }
    let mut cells = Vec::from_slice(alloc, old)?;
    cells[cell as usize] = cost;
    Ok(cells)
}

/// A copy of these cells if they may replace those of a table, or the first fault of this edit.
fn cells_for(
    alloc: Global,
    tables: &[Table],
    table: u64,
    cells: &[u64],
) -> Result<Vec<u64>, SetFault>
    ensures { MatchResult result
        (λ copy. (cells_fault tables.now table cells.now ≡ None) × (copy.items ≡ cells.now))
        (IsEditFaultOf (cells_fault tables.now table cells.now)) }
{
    let Some(old) = cells_at(tables, table) else {
        return Err(SetFault::NoTable);
    };
    if cells.len() != old.len() {
        return Err(SetFault::NoCell);
    }
    if exceed_cost(cells) {
        return Err(SetFault::CostTooLarge);
    }
    Ok(Vec::from_slice(alloc, cells)?)
}

/// Whether a cell is above [`MAX_COST`].
fn exceed_cost(cells: &[u64]) -> bool
    ensures { result ≡ list_any (λ c. nat_lt cost_limit c) cells.now }
{
    cells.iter().any(|cell| *cell > MAX_COST)
}

/// The greatest of the cells, or 0 if there are none.
fn greatest_of(cells: &[u64]) -> u64
    ensures { result ≡ greatest cells.now }
{
    cells.iter().fold(0, |most, cell| most.max(*cell))
}

/// The sum of the tables' greatest cells if a table gets these cells; `None` exactly when it would
/// exceed [`CAP`]. `top` is the sum before the change.
pub(crate) fn sum_with(problem: &Problem, top: u64, table: usize, cells: &[u64]) -> Option<u64>
    requires inside { table < length problem.now.tables }
    requires top { top ≡ top_of problem.now }
    requires cheap { All (λ c. c ≤ cost_limit) cells.now }
    ensures { MatchOption result (amount_limit < top_of (with_cells problem.now table cells.now))
        (λ sum. (sum ≡ top_of (with_cells problem.now table cells.now)) × (sum ≤ amount_limit)) }
{
    problem_is_whole(problem);
    sum_of(problem.tables.as_slice(), top, table, cells)
}

/// The same for tables.
fn sum_of(tables: &[Table], top: u64, table: usize, cells: &[u64]) -> Option<u64>
    requires inside { table < length tables.now }
    requires top { top ≡ greatest_sum tables.now }
    requires within { greatest_sum tables.now ≤ amount_limit }
    requires cheap { All (λ c. c ≤ cost_limit) cells.now }
    ensures { let sum = greatest_sum (slice_set tables.now table
        (recelled (slice_index_or tables.now table no_table) cells.now)) in
        MatchOption result (amount_limit < sum) (λ s. (s ≡ sum) × (s ≤ amount_limit)) }
{
    let replaced = &tables[table];
    let old = greatest_of(replaced.cells.as_slice());
    let sum = top - old + greatest_of(cells);
    if sum > CAP { None } else { Some(sum) }
}

/// Replaces the cells of a table.
fn recell(table: &mut Table, cells: CellList)
    requires { table_fault table.old.scope table.old.sizes cells ≡ None }
    ensures { table.new ≡ recelled table.old cells }
{
    table.cells = cells;
}

/// Replaces the cells of one of the tables.
fn recell_at(alloc: Global, tables: &mut TableList, table: usize, cells: CellList)
    requires inside { table < length tables.old }
    requires whole { let t = slice_index_or tables.old table no_table in
        table_fault t.scope t.sizes cells ≡ None }
    ensures { tables.new ≡ slice_set tables.old table
        (recelled (slice_index_or tables.old table no_table) cells) }
{
    let mut items = mem::replace(tables, TableList::from_vec(Vec::new(alloc))).into_vec();
    recell(&mut items[table], cells);
    *tables = TableList::from_vec(items);
}

/// Replaces the cells of a table of a problem.
fn put_cells(alloc: Global, problem: &mut Problem, table: usize, cells: CellList)
    requires inside { table < length problem.old.tables }
    requires whole { IsProblem (with_cells problem.old table cells) }
    ensures { problem.new ≡ with_cells problem.old table cells }
{
    recell_at(alloc, &mut problem.tables, table, cells);
}

/// Replaces the cells of a table of a file.
pub(crate) fn put_in_file(alloc: Global, file: &mut ProblemFile, table: usize, cells: CellList)
    requires inside { table < length file.old.problem.tables }
    requires whole { IsProblem (with_cells file.old.problem table cells) }
    ensures { file.new ≡ edited_file file.old table cells }
{
    put_cells(alloc, &mut file.problem, table, cells);
}

/// The difference of each cell from the greatest one.
fn turn_cells(alloc: Global, cells: &[u64]) -> Result<Vec<u64>, NoMemory>
    ensures { IfOk result (λ less. less.items ≡ turned_cells cells.now) }
{
    cells_less(alloc, cells, greatest_of(cells))
}

/// The difference of each cell from `top`.
fn cells_less(alloc: Global, cells: &[u64], top: u64) -> Result<Vec<u64>, NoMemory>
    requires { All (λ cell. cell ≤ top) cells.now }
    ensures { IfOk result (λ less. less.items ≡ map (λ cell. top - cell) cells.now) }
{
    Ok(cells.iter().map(|cell| top - *cell).collect(alloc)?)
}

/// Replaces the cells of a table of the turned problem, if there is one, with these cells turned.
pub(crate) fn put_in_turned(
    alloc: Global,
    turned: &mut Option<Problem>,
    table: usize,
    cells: &[u64],
) -> Result<(), NoMemory>
    requires inside { (q : Dcop) → turned.old ≡ Some q → table < length q.tables }
    requires whole { (q : Dcop) → turned.old ≡ Some q
        → IsProblem (with_cells q table (turned_cells cells.now)) }
    ensures done { OnOk result
        (turned.new ≡ option_map (λ q. with_cells q table (turned_cells cells.now)) turned.old) }
    ensures kept { OnErr result (turned.new ≡ turned.old) }
{
    if let Some(problem) = turned {
        let less = turn_cells(alloc, cells)?;
        put_cells(alloc, problem, table, CellList::from_vec(less));
    }
    Ok(())
}
