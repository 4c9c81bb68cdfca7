//! Adding a table to the cells of a joined one.

ghost use Rattle.std.specs.Prelude.{◌≡◌, ℕ, ◌+◌, ◌*◌, ◌-◌, ◌<◌, ◌≤◌, length, List, ◌∷◌, [], None};
ghost use Rattle.std.specs.List.{All};
ghost use Rattle.dcop_base.specs.Limits.{amount_limit};
ghost use Rattle.dcop_base.specs.Table.{product, table_fault};
ghost use Rattle.util_join.specs.Join.{LiesIn, IsSum};
ghost use Rattle.util_join.specs.Strides.{strides, offset, last_values, along, IsBlockSum};

use crate::alike::add_alike;
use crate::row::{Row, row_of};
use crate::stride::stride_of;
use dcop_base::{CAP, Table, VarId, product_of};
use util_kernel::add_lanes;

/// Adds a table to a joined table over these variables with these sizes and cells, block by block:
/// each cell gains the table's cell at the same values. A sum above [`CAP`] becomes [`CAP`].
pub(crate) fn add_all(cells: &mut [u64], over: &[VarId], sizes: &[u16], table: &Table)
    requires whole { table_fault over.now sizes.now cells.old ≡ None }
    requires lies { LiesIn over.now sizes.now table.now }
    ensures whole { table_fault over.now sizes.now cells.new ≡ None }
    ensures sum { IsSum (record { scope = over.now; sizes = sizes.now; cells = cells.old }) table.now
        (record { scope = over.now; sizes = sizes.now; cells = cells.new }) }
{
    let from = table.cells.as_slice();
    let row = row_of(table, over, sizes);
    let start = row.start;
    add_block(cells, from, table, &over[..start], &sizes[..start], row);
}

/// Adds the cells `from` of a table to the rows of a block, for each choice of values of these
/// variables, using the table's strides.
fn add_block(
    cells: &mut [u64],
    from: &[u64],
    table: &Table,
    over: &[VarId],
    sizes: &[u16],
    row: Row,
)
    requires sized { length sizes.now ≡ length over.now }
    requires full { length cells.old ≡ product sizes.now * row.count }
    requires some { (1 ≤ row.count) × (1 ≤ row.width) }
    requires inside { offset (strides table.now over.now) (last_values sizes.now)
        + row.step * (row.width - 1) < length from.now }
    requires table { product table.now.sizes ≤ usize.MAX }
    requires cells { All (λ n. n ≤ amount_limit) cells.old }
    requires from { All (λ n. n ≤ amount_limit) from.now }
    ensures { IsBlockSum from.now (strides table.now over.now) sizes.now row.count
        (along row.width row.step) cells.old cells.new }
{
    let Some((var, over)) = over.split_first() else {
        return add_alike(cells, from, row);
    };
    let Some((size, sizes)) = sizes.split_first() else {
        return;
    };
    let stride = stride_of(table, *var);
    if over.is_empty() {
        return add_rows(cells, from, usize::from(*size), stride, row);
    }
    let block = product_of(sizes).saturating_mul(row.count);
    for k in 0..usize::from(*size) {
        let at = k * block;
        let (_, from) = from.split_at(stride * k);
        add_block(&mut cells[at..at + block], from, table, over, sizes, row);
    }
}

/// Adds the cells `from` of a table to the rows for the `size` values of one variable, using its
/// stride.
fn add_rows(cells: &mut [u64], from: &[u64], size: usize, stride: usize, row: Row)
    requires full { length cells.old ≡ size * row.count }
    requires some { (1 ≤ row.count) × (1 ≤ row.width) }
    requires inside { stride * (size - 1) + row.step * (row.width - 1) < length from.now }
    requires cells { All (λ n. n ≤ amount_limit) cells.old }
    requires from { All (λ n. n ≤ amount_limit) from.now }
    ensures { IsBlockSum from.now (stride ∷ []) (size ∷ []) row.count (along row.width row.step)
        cells.old cells.new }
{
    if row.step == 1 && row.count == row.width {
        return add_near_rows(cells, from, size, stride, row.width);
    }
    for k in 0..size {
        let at = k * row.count;
        let (_, from) = from.split_at(stride * k);
        add_alike(&mut cells[at..at + row.count], from, row);
    }
}

/// [`add_rows`] when the place in the table moves by one cell along a row.
fn add_near_rows(cells: &mut [u64], from: &[u64], size: usize, stride: usize, width: usize)
    requires full { length cells.old ≡ size * width }
    requires some { 1 ≤ width }
    requires inside { stride * (size - 1) + (width - 1) < length from.now }
    requires cells { All (λ n. n ≤ amount_limit) cells.old }
    requires from { All (λ n. n ≤ amount_limit) from.now }
    ensures { IsBlockSum from.now (stride ∷ []) (size ∷ []) width (along width 1)
        cells.old cells.new }
{
    for k in 0..size {
        let at = k * width;
        let (_, from) = from.split_at(stride * k);
        add_lanes(&mut cells[at..at + width], &from[..width]);
    }
}
