//! Going through the cells of a table: the values of one cell after the other.

ghost use Rattle.std.specs.Prelude.{◌≡◌, ℕ, ◌<◌, length, false, slice_index};
ghost use Rattle.std.specs.List.{All};
ghost use Rattle.dcop_base.specs.Table.{AreWithin, has, has_repeat};
ghost use Rattle.certificate_check.specs.Odometer.{IsNextPlace};

use dcop_base::{Val, VarId};

/// Gives the variables of a scope the values of the next cell of a table; the last variable varies
/// fastest. After the last cell it gives them the values of the first cell, and returns `false`.
/// `values` is an assignment of variables of these sizes.
pub(crate) fn advance(sizes: &[u16], scope: &[VarId], values: &mut [Val]) -> bool
    requires distinct { has_repeat scope.now ≡ false }
    requires named { All (λ v. v < length sizes.now) scope.now }
    requires within { AreWithin sizes.now values.old }
    ensures within { AreWithin sizes.now values.new }
    ensures next { IsNextPlace sizes.now scope.now values.old values.new result }
    ensures others { (v : ℕ) → has scope.now v ≡ false
        → slice_index values.new v ≡ slice_index values.old v }
{
    let Some((var, rest)) = scope.split_first() else {
        return false;
    };
    if advance(sizes, rest, values) {
        return true;
    }
    let place = var.0 as usize;
    let value = values[place];
    let next = value.0 + 1;
    let within = next < sizes[place];
    values[place] = Val(if within { next } else { 0 });
    within
}
