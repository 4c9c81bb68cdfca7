//! Adding a table that names only the last variables of a joined one.

ghost use Rattle.std.specs.Prelude.{◌≡◌, ℕ, ◌<◌, ◌≤◌, false, None, slice_index, length};
ghost use Rattle.dcop_base.specs.Table.{has, table_fault};
ghost use Rattle.util_join.specs.Join.{LiesIn, IsSum};

use crate::add::add_all;
use crate::alike::add_alike;
use crate::row::Row;
use dcop_base::{Table, VarId, product_of, stands_in};

/// The most cells that a table is written to before it is added.
const WINDOW: usize = 256;

/// Adds a table to a joined table over these variables with these sizes and cells: each cell gains
/// the table's cell at the same values. A sum above [`CAP`](dcop_base::CAP) becomes `CAP`.
///
/// The first variables that the table does not name do not change what is added. If the others have
/// few cells, the table is written over these once, and then added again and again.
pub(crate) fn add_cells(cells: &mut [u64], over: &[VarId], sizes: &[u16], table: &Table)
    requires whole { table_fault over.now sizes.now cells.old ≡ None }
    requires lies { LiesIn over.now sizes.now table.now }
    ensures whole { table_fault over.now sizes.now cells.new ≡ None }
    ensures sum { IsSum (record { scope = over.now; sizes = sizes.now; cells = cells.old }) table.now
        (record { scope = over.now; sizes = sizes.now; cells = cells.new }) }
{
    let first = first_named(over, table.scope.as_slice());
    let (_, vars) = over.split_at(first);
    let (_, counts) = sizes.split_at(first);
    let count = cells.len();
    let width = product_of(counts);
    if width >= count || width > WINDOW {
        return add_all(cells, over, sizes, table);
    }
    let mut window = [0; WINDOW];
    let (block, _) = window.split_at_mut(width);
    add_all(block, vars, counts, table);
    let row = Row {
        start: 0,
        count,
        width,
        step: 1,
    };
    add_alike(cells, block, row);
}

/// How many variables are before the first one that the scope names.
fn first_named(over: &[VarId], scope: &[VarId]) -> usize
    ensures within { result ≤ length over.now }
    ensures unnamed { (j : ℕ) → j < result → has scope.now (slice_index over.now j) ≡ false }
{
    for (k, var) in over.iter().enumerate() {
        if stands_in(scope, *var) {
            return k;
        }
    }
    over.len()
}
