//! Slices of tables.

ghost use Rattle.std.specs.Prelude.{◌≡◌, ◌<◌, ◌≤◌, ◌*◌, true, None, length, IfOk, slice_index};
ghost use Rattle.std.specs.List.{All, remove};
ghost use Rattle.dcop_base.specs.Table.{has, product, table_fault};
ghost use Rattle.cost_table.specs.Cells.{place_in, IsSlice};
ghost use Rattle.cost_table.specs.Runs.{AreRuns, AreCellsAt};

use crate::place::place_in;
use dcop_base::{CellList, NoMemory, SizeList, Table, Val, VarId, VarList, product_of};
use std::alloc::Global;

/// The slice of a table at a value of a variable of its scope: the table without the variable, with
/// the cells at that value.
///
/// # Errors
///
/// [`NoMemory`] if memory runs out.
pub fn fix(alloc: Global, table: &Table, var: VarId, val: Val) -> Result<Table, NoMemory>
    requires stands { has table.now.scope var ≡ true }
    requires below { val < slice_index table.now.sizes (place_in table.now.scope var) }
    ensures { IfOk result (λ slice. IsSlice table.now var val slice) }
{
    slice_of(
        alloc,
        table.scope.as_slice(),
        table.sizes.as_slice(),
        table.cells.as_slice(),
        var,
        val,
    )
}

/// The slice of the table that has these parts.
fn slice_of(
    alloc: Global,
    scope: &[VarId],
    sizes: &[u16],
    cells: &[u64],
    var: VarId,
    val: Val,
) -> Result<Table, NoMemory>
    requires whole { table_fault scope.now sizes.now cells.now ≡ None }
    requires stands { has scope.now var ≡ true }
    requires below { val < slice_index sizes.now (place_in scope.now var) }
    ensures { IfOk result (λ slice. IsSlice
        (record { scope = scope.now; sizes = sizes.now; cells = cells.now }) var val slice) }
{
    let place = place_in(scope, var);
    let kept = cells_at(alloc, sizes, cells, place, val)?;
    let cells = CellList::shared(alloc, kept)?;
    let scope = scope_without(alloc, scope, place)?;
    let sizes = sizes_without(alloc, sizes, place)?;
    Ok(Table {
        scope,
        sizes,
        cells,
    })
}

/// The cells of a table of these sizes at a value of the variable at this place.
pub(crate) fn cells_at(
    alloc: Global,
    sizes: &[u16],
    cells: &[u64],
    place: usize,
    val: Val,
) -> Result<Vec<u64>, NoMemory>
    requires inside { place < length sizes.now }
    requires below { val < slice_index sizes.now place }
    requires full { length cells.now ≡ product sizes.now }
    requires some { All (λ s. 1 ≤ s) sizes.now }
    ensures { IfOk result (λ kept. AreCellsAt sizes.now cells.now place val kept.items) }
{
    let (before, _) = sizes.split_at(place);
    let (_, behind) = sizes.split_at(place + 1);
    let blocks = product_of(before);
    let inner = product_of(behind);
    let size = usize::from(sizes[place]);
    runs_of(alloc, cells, blocks, size, inner, usize::from(val.0))
}

/// From each of `blocks` blocks, which have `size` runs of `inner` cells each, the run with this
/// number.
fn runs_of(
    alloc: Global,
    cells: &[u64],
    blocks: usize,
    size: usize,
    inner: usize,
    number: usize,
) -> Result<Vec<u64>, NoMemory>
    requires full { length cells.now ≡ blocks * (size * inner) }
    requires some { 1 ≤ inner }
    requires below { number < size }
    ensures { IfOk result (λ kept. AreRuns cells.now blocks size inner number kept.items) }
{
    let mut kept = Vec::with_capacity(alloc, blocks.saturating_mul(inner))?;
    for block in 0..blocks {
        let start = (block * size + number) * inner;
        kept.extend_from_slice(&cells[start..start + inner])?;
    }
    Ok(kept)
}

/// The scope without the variable at this place.
///
/// # Errors
///
/// [`NoMemory`] if memory runs out.
pub fn scope_without(alloc: Global, scope: &[VarId], place: usize) -> Result<VarList, NoMemory>
    requires { place < length scope.now }
    ensures { IfOk result (λ rest. rest ≡ remove scope.now place) }
{
    let (before, _) = scope.split_at(place);
    let mut rest = VarList::from_slice(alloc, before)?;
    let (_, behind) = scope.split_at(place + 1);
    for var in behind {
        rest.push(*var)?;
    }
    Ok(rest)
}

/// The sizes without the one at this place.
///
/// # Errors
///
/// [`NoMemory`] if memory runs out.
pub fn sizes_without(alloc: Global, sizes: &[u16], place: usize) -> Result<SizeList, NoMemory>
    requires { place < length sizes.now }
    ensures { IfOk result (λ rest. rest ≡ remove sizes.now place) }
{
    let (before, _) = sizes.split_at(place);
    let mut rest = SizeList::from_slice(alloc, before)?;
    let (_, behind) = sizes.split_at(place + 1);
    for size in behind {
        rest.push(*size)?;
    }
    Ok(rest)
}
