//! The sum of own tables' and children's tables' cells at an assignment.

ghost use Rattle.std.specs.Prelude.{◌≡◌, ◌<◌, ◌≤◌, length, map, min, slice_index};
ghost use Rattle.std.specs.List.{All, sum_by};
ghost use Rattle.dcop_base.specs.Table.{AreWithin, product, values_at};
ghost use Rattle.dcop_base.specs.Whole.{IsTableOf};
ghost use Rattle.dcop_base.specs.Values.{cell_with, cost_with};
ghost use Rattle.certificate_text.specs.Fits.{FitsUtil};
ghost use Rattle.minimised_problem.specs.Told.{sized};
ghost use Rattle.certificate_check.specs.Cells.{sum_below};
ghost use Rattle.certificate_check.specs.Odometer.{place_of};

use certificate_text::Util;
use dcop_base::{Table, Val, VarId, place_of};

/// The sum of the cells that an assignment selects, or [`u64::MAX`] if that is less.
pub(crate) fn sum_below(sizes: &[u16], own: &[&Table], children: &[&Util], values: &[Val]) -> u64
    requires own { All (IsTableOf sizes.now) (map (λ t. t.now) own.now) }
    requires children { All (FitsUtil sizes.now) (map (λ u. u.now) children.now) }
    requires within { AreWithin sizes.now values.now }
    ensures { result ≡ min (sum_below sizes.now (map (λ t. t.now) own.now)
        (map (λ u. u.now) children.now) (slice_index values.now)) u64.MAX }
{
    own_sum(sizes, own, values).saturating_add(child_sum(sizes, children, values))
}

/// The sum of the tables' cells, or [`u64::MAX`] if that is less.
fn own_sum(sizes: &[u16], tables: &[&Table], values: &[Val]) -> u64
    requires tables { All (IsTableOf sizes.now) (map (λ t. t.now) tables.now) }
    requires within { AreWithin sizes.now values.now }
    ensures { result ≡ min (cost_with (map (λ t. t.now) tables.now) (slice_index values.now)) u64.MAX }
{
    let mut sum: u64 = 0;
    for table in tables {
        sum = sum.saturating_add(table.eval(values));
    }
    sum
}

/// The sum of the UTIL tables' cells, or [`u64::MAX`] if that is less.
fn child_sum(sizes: &[u16], utils: &[&Util], values: &[Val]) -> u64
    requires utils { All (FitsUtil sizes.now) (map (λ u. u.now) utils.now) }
    requires within { AreWithin sizes.now values.now }
    ensures { result ≡ min (sum_by (λ u. cell_with (sized sizes.now u) (slice_index values.now))
        (map (λ u. u.now) utils.now)) u64.MAX }
{
    let mut sum: u64 = 0;
    for util in utils {
        sum = sum.saturating_add(util_cell(sizes, util, values));
    }
    sum
}

/// The cell of a UTIL table that an assignment selects.
fn util_cell(sizes: &[u16], util: &Util, values: &[Val]) -> u64
    requires fits { FitsUtil sizes.now util.now }
    requires within { AreWithin sizes.now values.now }
    ensures { result ≡ cell_with (sized sizes.now util.now) (slice_index values.now) }
{
    let cells = util.cells.as_slice();
    let place = place_at(sizes, util.scope.as_slice(), values);
    cells[place]
}

/// The position of the cell that an assignment selects in a table of this scope.
fn place_at(sizes: &[u16], scope: &[VarId], values: &[Val]) -> usize
    requires named { All (λ v. v < length sizes.now) scope.now }
    requires within { AreWithin sizes.now values.now }
    requires few { product (map (slice_index sizes.now) scope.now) ≤ usize.MAX }
    ensures { result ≡ place_of sizes.now scope.now values.now }
{
    place_of(scope.len(), |k| digit_at(sizes, scope, values, k))
}

/// The size and the value of the variable at this position of a scope.
fn digit_at(sizes: &[u16], scope: &[VarId], values: &[Val], k: usize) -> (u16, Val)
    requires stands { k < length scope.now }
    requires named { All (λ v. v < length sizes.now) scope.now }
    requires within { AreWithin sizes.now values.now }
    ensures { result ≡ (slice_index (map (slice_index sizes.now) scope.now) k, slice_index (values_at scope.now values.now) k) }
{
    let var = scope[k];
    let index = var.0 as usize;
    (sizes[index], values[index])
}
