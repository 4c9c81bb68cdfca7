//! Rows: for each value of the next variable, what it costs at least.

ghost use Rattle.std.specs.Prelude.{◌≡◌, ℕ, ◌+◌, ◌*◌, ◌<◌, ◌≤◌, length, min, slice_index};
ghost use Rattle.std.specs.List.{All};
ghost use Rattle.dcop_base.specs.Limits.{amount_limit};
ghost use Rattle.dcop_base.specs.Table.{AreWithin, cell_place, product, values_at};
ghost use Rattle.dcop_base.specs.Values.{cell_with, cost_with, with_own};
ghost use Rattle.util_join.specs.Strides.{stride};
ghost use Rattle.bound_search.specs.Grounds.{HasRowAdded, HasCell, HasRow};

use bucket_bounds::Bucket;
use dcop_base::{Table, Val, VarId, place_of, product_of};

/// Fills the row of a variable: for each of its values the estimate at the next depth. It starts
/// from the estimate at the variable's own depth, takes off what its bucket sends, and adds the
/// tables of the bucket and the bounds that come to it.
pub(crate) fn fill_row(row: &mut [u64], bucket: &Bucket, values: &[Val], var: VarId, estimate: u64)
    requires some { 1 ≤ length row.old }
    requires zero { slice_index values.now var ≡ 0 }
    requires sent { All (HasCell values.now) bucket.now.sent }
    requires tables { All (HasRow values.now var (length row.old)) bucket.now.tables }
    requires came { All (HasRow values.now var (length row.old)) bucket.now.came }
    requires few { estimate ≤ amount_limit }
    requires less { bucket.now.fixed + cost_with bucket.now.sent (slice_index values.now) ≤ estimate }
    requires within { (d : ℕ) → d < length row.old
        → estimate + cost_with bucket.now.tables (with_own var d (slice_index values.now))
        + cost_with bucket.now.came (with_own var d (slice_index values.now))
        ≤ amount_limit + (bucket.now.fixed + cost_with bucket.now.sent (slice_index values.now)) }
    ensures { (d : ℕ) → d < length row.old → slice_index row.new d
        + (bucket.now.fixed + cost_with bucket.now.sent (slice_index values.now))
        ≡ estimate + cost_with bucket.now.tables (with_own var d (slice_index values.now))
        + cost_with bucket.now.came (with_own var d (slice_index values.now)) }
{
    let base = estimate - bucket.fixed - cost_of(bucket.sent.as_slice(), values);
    set_all(row, base);
    add_tables(row, bucket.tables.as_slice(), values, var);
    add_tables(row, bucket.came.as_slice(), values, var);
}

/// Sets all entries of a row.
fn set_all(row: &mut [u64], entry: u64)
    ensures { (d : ℕ) → d < length row.old → slice_index row.new d ≡ entry }
{
    for own in row.iter_mut() {
        *own = entry;
    }
}

/// The sum of tables at these values.
pub(crate) fn cost_of(tables: &[Table], values: &[Val]) -> u64
    requires cells { All (HasCell values.now) tables.now }
    requires within { cost_with tables.now (slice_index values.now) ≤ amount_limit }
    ensures { result ≡ cost_with tables.now (slice_index values.now) }
{
    let mut cost = 0;
    for table in tables {
        cost += table.eval(values);
    }
    cost
}

/// Adds to the row of a variable what these tables cost at each of its values. Among `values` the
/// variable has the value 0.
fn add_tables(row: &mut [u64], tables: &[Table], values: &[Val], var: VarId)
    requires some { 1 ≤ length row.old }
    requires zero { slice_index values.now var ≡ 0 }
    requires cells { All (HasRow values.now var (length row.old)) tables.now }
    requires within { (d : ℕ) → d < length row.old → slice_index row.old d
        + cost_with tables.now (with_own var d (slice_index values.now)) ≤ amount_limit }
    ensures { HasRowAdded values.now var tables.now row.old row.new }
{
    for table in tables {
        add_table(row, table, values, var);
    }
}

/// Adds to the row of a variable what a table costs at each of its values.
fn add_table(row: &mut [u64], table: &Table, values: &[Val], var: VarId)
    requires some { 1 ≤ length row.old }
    requires zero { slice_index values.now var ≡ 0 }
    requires cells { HasRow values.now var (length row.old) table.now }
    requires within { (d : ℕ) → d < length row.old → slice_index row.old d
        + cell_with table.now (with_own var d (slice_index values.now)) ≤ amount_limit }
    ensures { (d : ℕ) → d < length row.old → slice_index row.new d
        ≡ slice_index row.old d + cell_with table.now (with_own var d (slice_index values.now)) }
{
    let scope = table.scope.as_slice();
    let sizes = table.sizes.as_slice();
    let cells = table.cells.as_slice();
    let first = place_at(scope, sizes, values);
    let stride = stride_of(scope, sizes, var);
    add_cells(row, cells, first, stride);
}

/// The place of a table's cell at these values.
fn place_at(scope: &[VarId], sizes: &[u16], values: &[Val]) -> usize
    requires entries { All (λ v. v < length values.now) scope.now }
    requires sizes { AreWithin sizes.now (values_at scope.now values.now) }
    requires few { product sizes.now ≤ usize.MAX }
    ensures { result ≡ cell_place sizes.now (values_at scope.now values.now) }
{
    place_of(scope.len(), |k| {
        let var = scope[k];
        (sizes[k], values[var.0 as usize])
    })
}

/// The distance between the cells of two successive values of a variable.
#[tactic(auto, using(crate::proofs::PlaceLaws::stride_next))]
fn stride_of(scope: &[VarId], sizes: &[u16], var: VarId) -> usize
    requires { length sizes.now ≡ length scope.now }
    ensures { result ≡ min (stride scope.now sizes.now var) usize.MAX }
{
    for (k, other) in scope.iter().enumerate() {
        if var == *other {
            let (_, behind) = sizes.split_at(k + 1);
            return product_of(behind);
        }
    }
    0
}

/// Adds cells to the entries of a row, one to each: the cell at `first` to the first entry, and the
/// cell `stride` further on to each next one.
fn add_cells(row: &mut [u64], cells: &[u64], first: usize, stride: usize)
    requires some { 1 ≤ length row.old }
    requires inside { (d : ℕ) → d < length row.old → first + d * stride < length cells.now }
    requires within { (d : ℕ) → d < length row.old → slice_index row.old d
        + slice_index cells.now (first + d * stride) ≤ amount_limit }
    ensures { (d : ℕ) → d < length row.old → slice_index row.new d
        ≡ slice_index row.old d + slice_index cells.now (first + d * stride) }
{
    if stride == 1 {
        let end = first + row.len();
        add_run(row, &cells[first..end]);
    } else {
        add_strided(row, cells, first, stride);
    }
}

/// Adds a run of cells to the entries of a row, one to each.
fn add_run(row: &mut [u64], run: &[u64])
    requires long { length row.old ≤ length run.now }
    requires within { (d : ℕ) → d < length row.old → slice_index row.old d
        + slice_index run.now d ≤ amount_limit }
    ensures { (d : ℕ) → d < length row.old → slice_index row.new d
        ≡ slice_index row.old d + slice_index run.now d }
{
    for (k, entry) in row.iter_mut().enumerate() {
        *entry += run[k];
    }
}

/// [`add_cells`], one cell after the other.
fn add_strided(row: &mut [u64], cells: &[u64], first: usize, stride: usize)
    requires inside { (d : ℕ) → d < length row.old → first + d * stride < length cells.now }
    requires within { (d : ℕ) → d < length row.old → slice_index row.old d
        + slice_index cells.now (first + d * stride) ≤ amount_limit }
    ensures { (d : ℕ) → d < length row.old → slice_index row.new d
        ≡ slice_index row.old d + slice_index cells.now (first + d * stride) }
{
    for (k, entry) in row.iter_mut().enumerate() {
        *entry += cells[first + k * stride];
    }
}
