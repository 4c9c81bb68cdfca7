//! The least over one variable.

ghost use Rattle.std.specs.Prelude.{◌≡◌, ◌<◌, ◌≤◌, true, None, length, IfOk};
ghost use Rattle.std.specs.List.{All};
ghost use Rattle.dcop_base.specs.Table.{has, product, table_fault};
ghost use Rattle.util_project.specs.Projection.{IsProjection};
ghost use Rattle.util_project.specs.Leasts.{AreLeastsAt};

use crate::leasts::least_runs;
use cost_table::{place_in, scope_without, sizes_without};
use dcop_base::{CellList, NoMemory, Table, VarId, product_of};
use std::alloc::Global;

/// The projection of a table by a variable of its scope: the table without the variable, whose
/// cells are each the least over the variable's values. The other variables keep their order.
///
/// This is the projection of UTIL propagation in DPOP (Petcu, Faltings, IJCAI 2005).
///
/// # Errors
///
/// [`NoMemory`] if memory runs out.
pub fn project(alloc: Global, table: &Table, var: VarId) -> Result<Table, NoMemory>
    requires { has table.now.scope var ≡ true }
    ensures { IfOk result (λ less. IsProjection table.now var less) }
{
    project_of(
        alloc,
        table.scope.as_slice(),
        table.sizes.as_slice(),
        table.cells.as_slice(),
        var,
    )
}

/// The projection of the table that has these parts.
fn project_of(
    alloc: Global,
    scope: &[VarId],
    sizes: &[u16],
    cells: &[u64],
    var: VarId,
) -> Result<Table, NoMemory>
    requires whole { table_fault scope.now sizes.now cells.now ≡ None }
    requires stands { has scope.now var ≡ true }
    ensures { IfOk result (λ less. IsProjection
        (record { scope = scope.now; sizes = sizes.now; cells = cells.now }) var less) }
{
    let place = place_in(scope, var);
    let kept = leasts_at(alloc, sizes, cells, place)?;
    let cells = CellList::shared(alloc, kept)?;
    let scope = scope_without(alloc, scope, place)?;
    let sizes = sizes_without(alloc, sizes, place)?;
    Ok(Table {
        scope,
        sizes,
        cells,
    })
}

/// The least cells of a table of these sizes over the variable at this place.
fn leasts_at(
    alloc: Global,
    sizes: &[u16],
    cells: &[u64],
    place: usize,
) -> Result<Vec<u64>, NoMemory>
    requires inside { place < length sizes.now }
    requires full { length cells.now ≡ product sizes.now }
    requires some { All (λ s. 1 ≤ s) sizes.now }
    ensures { IfOk result (λ kept. AreLeastsAt sizes.now cells.now place kept.items) }
{
    let (before, _) = sizes.split_at(place);
    let (_, behind) = sizes.split_at(place + 1);
    let blocks = product_of(before);
    let inner = product_of(behind);
    least_runs(alloc, cells, blocks, usize::from(sizes[place]), inner)
}
