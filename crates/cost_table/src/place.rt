//! Numbers of cells and places of cells.

ghost use Rattle.std.specs.Prelude.{◌≡◌, ◌<◌, ◌≤◌, length, nat_lt, if◌then◌else◌};
ghost use Rattle.dcop_base.specs.Table.{AreWithin, product, cell_place};
ghost use Rattle.cost_table.specs.Cells.{place_in};

use dcop_base::{Val, VarId, have_zero, place_of, position_of};

/// The number of cells of a table of these sizes: their product, which is 1 for no sizes; `None`
/// exactly if it is above `limit`.
pub fn cells_of(sizes: &[u16], limit: u64) -> Option<u64>
    ensures { result ≡ (if nat_lt limit (product sizes.now) then None else Some (product sizes.now)) }
{
    if have_zero(sizes) {
        return Some(0);
    }
    let mut product: u64 = 1;
    for size in sizes {
        match product.checked_mul(u64::from(*size)) {
            Some(more) => product = more,
            None => return None,
        }
    }
    if product > limit { None } else { Some(product) }
}

/// The place of the cell at these values, in a table of these sizes.
pub fn place_at(sizes: &[u16], values: &[Val]) -> usize
    requires within { AreWithin sizes.now values.now }
    requires few { product sizes.now ≤ usize.MAX }
    ensures { result ≡ cell_place sizes.now values.now }
{
    place_of(sizes.len(), |k| (sizes[k], values[k]))
}

/// The place of a variable in a list; the list's length if it is not there.
pub fn place_in(vars: &[VarId], var: VarId) -> usize
    ensures { result ≡ place_in vars.now var }
{
    match position_of(vars, var) {
        Some(place) => place,
        None => vars.len(),
    }
}
