//! The turned problem, for the goal of a greatest sum.

ghost use Rattle.std.specs.Prelude.{◌≡◌, ◌-◌, ◌≤◌, IfOk, All, map};
ghost use Rattle.dcop_base.specs.Limits.{amount_limit};
ghost use Rattle.dcop_base.specs.Table.{greatest};
ghost use Rattle.dcop_base.specs.Faults.{greatest_sum};
ghost use Rattle.dcop_optimum.specs.Goal.{turned_table, turned, top_of, SumToTop, TellsGreatest};

use dcop_base::{CAP, CellList, NoMemory, PairList, Problem, SizeList, Table, TableList, VarList};
use std::alloc::Global;

/// The top sum: the sum of the tables' greatest cells. No assignment costs more.
pub fn top_sum(problem: &Problem) -> u64
    ensures sum { result ≡ top_of problem.now }
    ensures within { result ≤ amount_limit }
{
    sum_of_greatest(problem.tables.as_slice())
}

/// The turned problem: each cell is replaced by its table's greatest cell minus the cell; sizes,
/// scopes and joints are the same. The assignments that cost most in the problem cost least in the
/// turned one.
///
/// # Errors
///
/// [`NoMemory`] if memory runs out.
pub fn turn(alloc: Global, problem: &Problem) -> Result<Problem, NoMemory>
    ensures turned { IfOk result (λ q. q ≡ turned problem.now) }
    ensures sums { IfOk result (λ q. SumToTop problem.now q) }
    ensures greatest { IfOk result (λ q. TellsGreatest problem.now q) }
{
    let sizes = Vec::from_slice(alloc, problem.sizes.as_slice())?;
    let tables = turned_tables(alloc, problem.tables.as_slice())?;
    let joints = Vec::from_slice(alloc, problem.joints.as_slice())?;
    Ok(Problem {
        sizes: SizeList::from_vec(sizes),
        tables: TableList::from_vec(tables),
        joints: PairList::from_vec(joints),
    })
}

/// The tables, each turned.
fn turned_tables(alloc: Global, tables: &[Table]) -> Result<Vec<Table>, NoMemory>
    ensures { IfOk result (λ turned. turned.items ≡ map turned_table tables.now) }
{
    let mut turned = Vec::with_capacity(alloc, tables.len())?;
    for table in tables {
        turned.push(turned_table(alloc, table)?)?;
    }
    Ok(turned)
}

/// The table with each cell replaced by the table's greatest cell minus the cell.
fn turned_table(alloc: Global, table: &Table) -> Result<Table, NoMemory>
    ensures { IfOk result (λ t. t ≡ turned_table table.now) }
{
    let cells = table.cells.as_slice();
    let scope = Vec::from_slice(alloc, table.scope.as_slice())?;
    let sizes = Vec::from_slice(alloc, table.sizes.as_slice())?;
    let cells = cells_less(alloc, cells, greatest_of(cells))?;
    Ok(Table {
        scope: VarList::from_vec(scope),
        sizes: SizeList::from_vec(sizes),
        cells: CellList::shared(alloc, cells)?,
    })
}

/// `top` minus each cell.
fn cells_less(alloc: Global, cells: &[u64], top: u64) -> Result<Vec<u64>, NoMemory>
    requires { All (λ cell. cell ≤ top) cells.now }
    ensures { IfOk result (λ less. less.items ≡ map (λ cell. top - cell) cells.now) }
{
    Ok(cells.iter().map(|cell| top - *cell).collect(alloc)?)
}

/// The sum of the tables' greatest cells.
fn sum_of_greatest(tables: &[Table]) -> u64
    requires { greatest_sum tables.now ≤ amount_limit }
    ensures { result ≡ greatest_sum tables.now }
{
    tables
        .iter()
        .map(|table| greatest_of(table.cells.as_slice()))
        .sum()
}

/// The greatest of the cells; 0 if there are none.
fn greatest_of(cells: &[u64]) -> u64
    ensures { result ≡ greatest cells.now }
{
    cells.iter().fold(0, |most, cell| most.max(*cell))
}
