//! The first fault of the sizes and tables of a problem.

ghost use Rattle.std.specs.Prelude.{◌≡◌, ℕ, ◌+◌, ◌<◌, ◌≤◌, ◌^◌, List, [], map, length, None, ◌==◌, nat_eq, nat_lt, nat_le, slice_index};
ghost use Rattle.std.specs.List.{All, list_any, position};
ghost use Rattle.std.specs.Cmp.Lexicographic.{pointwise};
ghost use Rattle.dcop_base.specs.Limits.{amount_limit, cell_limit, cost_limit};
ghost use Rattle.dcop_base.specs.Table.{CostTable, greatest};
ghost use Rattle.dcop_base.specs.Faults.{cell_count, greatest_sum, is_bad_size, cells_fault, next_fault, tables_fault, problem_fault};
ghost use Rattle.dcop_base.specs.Totals.{AreTotals};

use crate::limit::{CAP, MAX_CELLS, MAX_COST, MAX_SCOPE, MAX_SIZE, MAX_VARIABLES};
use crate::number::VarId;
use crate::problem::ProblemFault;
use crate::scope::repeats;
use crate::table::Table;

/// Totals of the tables that come before a table.
#[derive(Clone, Copy)]
struct Totals {
    /// The number of these tables.
    tables: u64,
    /// The number of their cells.
    cells: u64,
    /// The sum of their greatest cells.
    sum: u64,
}

/// The first fault of sizes and tables, in the order in which a problem is refused. It is never
/// [`ProblemFault::NoMemory`].
pub(crate) fn fault_of(sizes: &[u16], tables: &[Table]) -> Option<ProblemFault>
    ensures { result ≡ problem_fault sizes.now tables.now }
{
    if sizes.is_empty() {
        return Some(ProblemFault::NoVariables);
    }
    if sizes.len() > MAX_VARIABLES {
        return Some(ProblemFault::TooManyVariables);
    }
    if let Some(var) = bad_size(sizes) {
        return Some(ProblemFault::DomainSize {
            var: VarId(var as u32),
        });
    }
    tables_fault_of(sizes, tables)
}

/// The first variable whose size is not a domain size.
fn bad_size(sizes: &[u16]) -> Option<usize>
    ensures { result ≡ position is_bad_size sizes.now }
{
    sizes.iter().position(|size| *size == 0 || *size > MAX_SIZE)
}

/// The first fault of the tables.
fn tables_fault_of(sizes: &[u16], tables: &[Table]) -> Option<ProblemFault>
    ensures { result ≡ tables_fault sizes.now [] tables.now }
{
    let mut before = Totals {
        tables: 0,
        cells: 0,
        sum: 0,
    };
    for table in tables {
        let cells = table.cells.as_slice();
        let most = greatest_of(cells);
        if let Some(fault) = next_fault_of(sizes, before, table, most) {
            return Some(fault);
        }
        before = totals_with(before, cells, most);
    }
    None
}

/// The totals with one more table, which has these cells. `most` is the greatest of them.
fn totals_with(before: Totals, cells: &[u64], most: u64) -> Totals
    requires tables { before.tables < 2 ^ 63 }
    requires cells { before.cells + length cells.now ≤ cell_limit }
    requires sum { before.sum + most ≤ amount_limit }
    ensures tables { result.tables ≡ before.tables + 1 }
    ensures cells { result.cells ≡ before.cells + length cells.now }
    ensures sum { result.sum ≡ before.sum + most }
{
    Totals {
        tables: before.tables + 1,
        cells: before.cells + cells.len() as u64,
        sum: before.sum + most,
    }
}

/// The fault of a table that comes after those of the totals, if it has one. `most` is the table's
/// greatest cell.
fn next_fault_of(sizes: &[u16], before: Totals, table: &Table, most: u64) -> Option<ProblemFault>
    requires cells { before.cells ≤ cell_limit }
    requires sum { before.sum ≤ amount_limit }
    requires most { most ≡ greatest table.now.cells }
    ensures { (earlier : List CostTable) → AreTotals earlier before →
        result ≡ next_fault sizes.now earlier table.now }
{
    let scope = table.scope.as_slice();
    if scope.is_empty() || scope.len() > MAX_SCOPE {
        return Some(ProblemFault::ScopeLength {
            table: before.tables,
        });
    }
    if exceed(scope, sizes.len()) {
        return Some(ProblemFault::ScopeRange {
            table: before.tables,
        });
    }
    if repeats(scope) {
        return Some(ProblemFault::ScopeRepeat {
            table: before.tables,
        });
    }
    if !are_sizes_of(table.sizes.as_slice(), sizes, scope) {
        return Some(ProblemFault::CellCount {
            table: before.tables,
        });
    }
    cells_fault_of(before, table.cells.as_slice(), most)
}

/// Whether the scope has a variable that is not below `variables`.
fn exceed(scope: &[VarId], variables: usize) -> bool
    ensures { result ≡ list_any (λ v. nat_le variables v) scope.now }
{
    scope.iter().any(|var| var.0 as usize >= variables)
}

/// Whether a table's own sizes are the problem's sizes of its variables.
fn are_sizes_of(own: &[u16], sizes: &[u16], scope: &[VarId]) -> bool
    requires { All (λ v. v < length sizes.now) scope.now }
    ensures { result ≡ pointwise nat_eq own.now (map (λ v. slice_index sizes.now v) scope.now) }
{
    if own.len() != scope.len() {
        return false;
    }
    for (k, var) in scope.iter().enumerate() {
        if own[k] != sizes[var.0 as usize] {
            return false;
        }
    }
    true
}

/// The fault, if any, in the cells of a table that comes after those of the totals. `most` is the
/// greatest of the cells.
fn cells_fault_of(before: Totals, cells: &[u64], most: u64) -> Option<ProblemFault>
    requires cells { before.cells ≤ cell_limit }
    requires sum { before.sum ≤ amount_limit }
    requires most { most ≡ greatest cells.now }
    ensures { (earlier : List CostTable) → AreTotals earlier before →
        result ≡ cells_fault earlier cells.now (position (λ c. nat_lt cost_limit c) cells.now) }
{
    let table = before.tables;
    if let Some(cell) = too_large(cells, most) {
        return Some(ProblemFault::CostTooLarge {
            table,
            cell: cell as u64,
        });
    }
    if before.cells + cells.len() as u64 > MAX_CELLS {
        return Some(ProblemFault::TooManyCells { table });
    }
    if before.sum + most > CAP {
        return Some(ProblemFault::SumTooLarge { table });
    }
    None
}

/// The place of the first cell above [`MAX_COST`]. `most` is the greatest of the cells.
fn too_large(cells: &[u64], most: u64) -> Option<usize>
    requires { most ≡ greatest cells.now }
    ensures { result ≡ position (λ c. nat_lt cost_limit c) cells.now }
{
    if most <= MAX_COST {
        return None;
    }
    first_above_limit(cells)
}

/// The place of the first cell above [`MAX_COST`].
fn first_above_limit(cells: &[u64]) -> Option<usize>
    ensures { result ≡ position (λ c. nat_lt cost_limit c) cells.now }
{
    cells.iter().position(|cell| *cell > MAX_COST)
}

/// The greatest cell; 0 if there are none.
fn greatest_of(cells: &[u64]) -> u64
    ensures { result ≡ greatest cells.now }
{
    cells.iter().fold(0, |most, cell| most.max(*cell))
}
