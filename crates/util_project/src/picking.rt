//! The value at which a table is least.

ghost use Rattle.std.specs.Prelude.{◌≡◌, ℕ, ◌+◌, ◌*◌, ◌<◌, ◌≤◌, true, None, length, nat_lt, slice_index};
ghost use Rattle.std.specs.List.{All, remove, insert};
ghost use Rattle.dcop_base.specs.Limits.{size_limit};
ghost use Rattle.dcop_base.specs.Table.{has, product, cell_place, table_fault, AreWithin};
ghost use Rattle.cost_table.specs.Cells.{place_in};
ghost use Rattle.util_project.specs.Projection.{IsLowestLeast, cell_at_value, size_in};

use cost_table::{place_at, place_in};
use dcop_base::{Table, Val, VarId, product_of};

/// The lowest value of a variable at which the table's cell is least. `values` are those of the
/// other variables of its scope, in scope order.
pub fn pick(table: &Table, var: VarId, values: &[Val]) -> Val
    requires stands { has table.now.scope var ≡ true }
    requires within { AreWithin (remove table.now.sizes (place_in table.now.scope var)) values.now }
    ensures { IsLowestLeast (cell_at_value table.now var values.now) (size_in table.now var) result }
{
    pick_of(
        table.scope.as_slice(),
        table.sizes.as_slice(),
        table.cells.as_slice(),
        var,
        values,
    )
}

/// The lowest value at which these costs, one for each value, are least.
pub fn lowest_of(costs: &[u64]) -> Val
    requires some { 1 ≤ length costs.now }
    requires few { length costs.now ≤ size_limit }
    ensures { IsLowestLeast (λ d. slice_index costs.now d) (length costs.now) result }
{
    let size = costs.len() as u16;
    lowest(costs, 0, 1, size)
}

/// The lowest value at which a cell is least in the table that has these parts.
fn pick_of(scope: &[VarId], sizes: &[u16], cells: &[u64], var: VarId, values: &[Val]) -> Val
    requires whole { table_fault scope.now sizes.now cells.now ≡ None }
    requires stands { has scope.now var ≡ true }
    requires within { AreWithin (remove sizes.now (place_in scope.now var)) values.now }
    ensures { IsLowestLeast
        (cell_at_value (record { scope = scope.now; sizes = sizes.now; cells = cells.now }) var values.now)
        (size_in (record { scope = scope.now; sizes = sizes.now; cells = cells.now }) var) result }
{
    pick_at(sizes, cells, place_in(scope, var), values)
}

/// The lowest value of the variable at this place at which a cell of a table of these sizes is
/// least.
fn pick_at(sizes: &[u16], cells: &[u64], place: usize, values: &[Val]) -> Val
    requires inside { place < length sizes.now }
    requires full { length cells.now ≡ product sizes.now }
    requires some { All (λ s. 1 ≤ s) sizes.now }
    requires within { AreWithin (remove sizes.now place) values.now }
    ensures { IsLowestLeast
        (λ d. slice_index cells.now (cell_place sizes.now (insert values.now place d)))
        (slice_index sizes.now place) result }
{
    let (before, _) = sizes.split_at(place);
    let (_, behind) = sizes.split_at(place + 1);
    let (front, back) = values.split_at(place);
    let inner = product_of(behind);
    let size = sizes[place];
    let block = place_at(before, front);
    let first = block * (usize::from(size) * inner) + place_at(behind, back);
    lowest(cells, first, inner, size)
}

/// The lowest number below `size` at which the cell that is this many strides after the first one
/// is least.
fn lowest(cells: &[u64], first: usize, stride: usize, size: u16) -> Val
    requires some { 1 ≤ size }
    requires inside { (d : ℕ) → d < size → first + d * stride < length cells.now }
    ensures { IsLowestLeast (λ d. slice_index cells.now (first + d * stride)) size result }
{
    let mut best = 0;
    for number in 1..size {
        if is_less(cells, first, stride, number, best) {
            best = number;
        }
    }
    Val(best)
}

/// Whether the cell at one number is less than the cell at another.
fn is_less(cells: &[u64], first: usize, stride: usize, number: u16, other: u16) -> bool
    requires number { first + number * stride < length cells.now }
    requires other { first + other * stride < length cells.now }
    ensures { result ≡ nat_lt (slice_index cells.now (first + number * stride))
        (slice_index cells.now (first + other * stride)) }
{
    cells[first + usize::from(number) * stride] < cells[first + usize::from(other) * stride]
}
