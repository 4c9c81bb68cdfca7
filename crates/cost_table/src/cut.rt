//! Slices of problems.

ghost use Rattle.std.specs.Prelude.{◌≡◌, ◌<◌, ◌≤◌, false, None, length, set, slice_index, IfOk};
ghost use Rattle.std.specs.List.{All, AllZip};
ghost use Rattle.dcop_base.specs.Table.{has_repeat, AreWithin, values_at, table_fault, IsTable};
ghost use Rattle.cost_table.specs.Cells.{place_in};
ghost use Rattle.cost_table.specs.Runs.{AreFewer, KeepsOne};
ghost use Rattle.cost_table.specs.Slices.{IsSliceOf, KeepsCosts, IsCut, IsCutOf, ones_at, places_in, FitInTurn};

use crate::place::place_in;
use crate::slicing::cells_at;
use dcop_base::{
    CellList, NoMemory, PairList, Problem, SizeList, Table, TableList, Val, ValList, VarId, VarList,
};
use std::alloc::Global;

/// The slice of a problem with its cut variables at these values: each cut variable has size 1, and
/// each table keeps the cells at the values. Scopes and joints stay the same.
///
/// # Errors
///
/// [`NoMemory`] if memory runs out.
pub fn slice(
    alloc: Global,
    problem: &Problem,
    cut: &VarList,
    values: &ValList,
) -> Result<Problem, NoMemory>
    requires apart { has_repeat cut.now ≡ false }
    requires within { AreWithin (values_at cut.now problem.now.sizes) values.now }
    ensures slice { IfOk result (λ slice. IsSliceOf problem.now cut.now values.now slice) }
    ensures costs { IfOk result (λ slice. KeepsCosts problem.now cut.now values.now slice) }
{
    let cut = cut.as_slice();
    let sizes = cut_sizes(alloc, problem.sizes.as_slice(), cut)?;
    let tables = cut_tables(alloc, problem, cut, values.as_slice())?;
    let joints = Vec::from_slice(alloc, problem.joints.as_slice())?;
    Ok(Problem {
        sizes,
        tables,
        joints: PairList::from_vec(joints),
    })
}

/// The sizes, with 1 for each cut variable.
fn cut_sizes(alloc: Global, sizes: &[u16], cut: &[VarId]) -> Result<SizeList, NoMemory>
    requires { All (λ v. v < length sizes.now) cut.now }
    ensures { IfOk result (λ less. less ≡ ones_at cut.now sizes.now) }
{
    let mut less = Vec::from_slice(alloc, sizes)?;
    for var in cut {
        less[var.0 as usize] = 1;
    }
    Ok(SizeList::from_vec(less))
}

/// The tables of the slice of a problem.
fn cut_tables(
    alloc: Global,
    problem: &Problem,
    cut: &[VarId],
    values: &[Val],
) -> Result<TableList, NoMemory>
    requires { FitInTurn problem.now.sizes cut.now values.now }
    ensures { IfOk result (λ tables. AllZip
        (IsCutOf problem.now.sizes cut.now values.now) problem.now.tables tables) }
{
    let mut tables = Vec::with_capacity(alloc, problem.tables.as_slice().len())?;
    for table in problem.tables.as_slice() {
        tables.push(cut_table(alloc, table, cut, values)?)?;
    }
    Ok(TableList::from_vec(tables))
}

/// The table with the cut variables at these values.
fn cut_table(alloc: Global, table: &Table, cut: &[VarId], values: &[Val]) -> Result<Table, NoMemory>
    requires whole { IsTable table.now }
    requires fit { FitInTurn table.now.sizes (places_in table.now.scope cut.now) values.now }
    ensures slice { IfOk result (λ slice. IsCut table.now cut.now values.now slice) }
    ensures whole { IfOk result (λ slice. IsTable slice) }
    ensures fewer { IfOk result (λ slice. AreFewer table.now.cells slice.cells) }
{
    let mut slice = table.clone()?;
    for (k, var) in cut.iter().enumerate() {
        slice = cut_one(alloc, slice, *var, values[k])?;
    }
    Ok(slice)
}

/// The table with one variable at a value; the table itself if it does not name the variable.
fn cut_one(alloc: Global, table: Table, var: VarId, val: Val) -> Result<Table, NoMemory>
    requires whole { IsTable table }
    requires below { place_in table.scope var < length table.sizes →
        val < slice_index table.sizes (place_in table.scope var) }
    ensures { IfOk result (λ less. KeepsOne table (place_in table.scope var) val less) }
{
    let scope = table.scope.as_slice();
    let sizes = table.sizes.as_slice();
    let place = place_in(scope, var);
    if place < sizes.len() {
        keep_one(alloc, scope, sizes, table.cells.as_slice(), place, val)
    } else {
        Ok(table)
    }
}

/// The table of these parts in which the variable at this place has one value left.
fn keep_one(
    alloc: Global,
    scope: &[VarId],
    sizes: &[u16],
    cells: &[u64],
    place: usize,
    val: Val,
) -> Result<Table, NoMemory>
    requires whole { table_fault scope.now sizes.now cells.now ≡ None }
    requires inside { place < length sizes.now }
    requires below { val < slice_index sizes.now place }
    ensures { IfOk result (λ less. KeepsOne
        (record { scope = scope.now; sizes = sizes.now; cells = cells.now }) place val less) }
{
    let kept = cells_at(alloc, sizes, cells, place, val)?;
    let scope = VarList::from_slice(alloc, scope)?;
    let sizes = one_at(alloc, sizes, place)?;
    Ok(Table {
        scope,
        sizes,
        cells: CellList::shared(alloc, kept)?,
    })
}

/// The sizes with 1 at this place.
fn one_at(alloc: Global, sizes: &[u16], place: usize) -> Result<SizeList, NoMemory>
    requires { place < length sizes.now }
    ensures { IfOk result (λ less. less ≡ set sizes.now place 1) }
{
    let (before, _) = sizes.split_at(place);
    let mut less = SizeList::from_slice(alloc, before)?;
    less.push(1)?;
    let (_, behind) = sizes.split_at(place + 1);
    for size in behind {
        less.push(*size)?;
    }
    Ok(less)
}
