//! Rows of cells along which the place in a table moves evenly.

ghost use Rattle.std.specs.Prelude.{◌≡◌, ℕ, ◌*◌, ◌-◌, ◌<◌, ◌≤◌, true, length, List, ◌∷◌};
ghost use Rattle.std.specs.List.{All};
ghost use Rattle.dcop_base.specs.Limits.{amount_limit};
ghost use Rattle.dcop_base.specs.Table.{product};
ghost use Rattle.util_join.specs.Strides.{IsRow, IsRowSum, strides};

use crate::stride::stride_of;
use dcop_base::{CAP, Table, VarId};
use util_kernel::{add_lanes, add_one_lanes};

/// The last variables of a joined table, whose cells are rows to which a table adds the same
/// amounts: along each row the place in the table moves by a fixed step from each cell to the next.
#[derive(Clone, Copy)]
pub(crate) struct Row {
    /// The number of variables before them.
    pub start: usize,
    /// The number of their cells.
    pub count: usize,
    /// The number of cells of a row.
    pub width: usize,
    /// How far the place in the table moves from each cell of a row to the next.
    pub step: usize,
}

/// The longest such rows of the variables with these sizes, in a table. They have the last
/// variable.
pub(crate) fn row_of(table: &Table, over: &[VarId], sizes: &[u16]) -> Row
    requires sized { length sizes.now ≡ length over.now }
    requires positive { All (λ s. 1 ≤ s) sizes.now }
    requires few { product sizes.now ≤ usize.MAX }
    requires table { product table.now.sizes ≤ usize.MAX }
    ensures { IsRow (strides table.now over.now) sizes.now result.start result.count result.width result.step }
{
    let Some((var, over)) = over.split_first() else {
        return Row {
            start: 0,
            count: 1,
            width: 1,
            step: 0,
        };
    };
    let Some((size, sizes)) = sizes.split_first() else {
        return Row {
            start: 0,
            count: 1,
            width: 1,
            step: 0,
        };
    };
    let row = row_of(table, over, sizes);
    if row.start > 0 {
        return Row {
            start: row.start + 1,
            ..row
        };
    }
    extended(row, usize::from(*size), stride_of(table, *var))
}

/// The longest rows of all variables. `row` is that of all but the first, which has this size and
/// stride.
fn extended(row: Row, size: usize, stride: usize) -> Row
    requires all { row.start ≡ 0 }
    requires positive { 1 ≤ size }
    requires few { size * row.count ≤ usize.MAX }
    ensures { (ds sizes : List ℕ) → IsRow ds sizes row.start row.count row.width row.step
        → IsRow (stride ∷ ds) (size ∷ sizes) result.start result.count result.width result.step }
{
    if row.count == 1 {
        return Row {
            start: 0,
            count: size,
            width: size,
            step: stride,
        };
    }
    if size == 1 {
        return row;
    }
    if goes_on(row, stride) {
        return Row {
            start: 0,
            count: size * row.count,
            width: size * row.count,
            step: row.step,
        };
    }
    if stride == 0 {
        return Row {
            count: size * row.count,
            ..row
        };
    }
    Row { start: 1, ..row }
}

/// Whether this is one row, and a variable of this stride before it goes on with the same step.
fn goes_on(row: Row, stride: usize) -> bool
    ensures { result ≡ true → (row.count ≡ row.width) × (stride ≡ row.step * row.count) }
{
    if row.count != row.width {
        return false;
    }
    match row.step.checked_mul(row.count) {
        Some(whole) => whole == stride,
        None => false,
    }
}

/// Adds amounts of `from` to the cells of a row: the first amount to the first cell, and for each
/// next cell the amount `step` places further on. A sum above [`CAP`] becomes [`CAP`].
pub(crate) fn add_row(cells: &mut [u64], from: &[u64], step: usize)
    requires some { 1 ≤ length cells.old }
    requires inside { step * (length cells.old - 1) < length from.now }
    requires cells { All (λ n. n ≤ amount_limit) cells.old }
    requires from { All (λ n. n ≤ amount_limit) from.now }
    ensures { IsRowSum from.now step cells.old cells.new }
{
    match step {
        0 => add_one_lanes(cells, from[0]),
        1 => {
            let count = cells.len();
            add_lanes(cells, &from[..count]);
        }
        _ => add_strided(cells, from, step),
    }
}

/// [`add_row`], one cell at a time.
fn add_strided(cells: &mut [u64], from: &[u64], step: usize)
    requires inside { step * (length cells.old - 1) < length from.now }
    requires cells { All (λ n. n ≤ amount_limit) cells.old }
    requires from { All (λ n. n ≤ amount_limit) from.now }
    ensures { IsRowSum from.now step cells.old cells.new }
{
    for k in 0..cells.len() {
        cells[k] = (cells[k] + from[step * k]).min(CAP);
    }
}
