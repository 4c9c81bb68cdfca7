//! The tuples of a function, and the cells that they give it.

ghost use Rattle.std.specs.Prelude.{◌≡◌, ◌==◌, ◌≤◌, ◌<◌, false, length, IfOk};
ghost use Rattle.std.specs.List.{list_any};
ghost use Rattle.dcop_base.specs.Limits.{cell_limit};
ghost use Rattle.dcop_base.specs.Table.{product};
ghost use Rattle.wcsp_text.specs.Numbers.{place};
ghost use Rattle.wcsp_text.specs.Cells.{values_read, tuples_read, cells_read};
ghost use Rattle.wcsp_text.specs.Gives.{Gives, filled, named};

use crate::fault::{Fault, WcspKind, fault_before};
use crate::number::next_number;
use dcop_base::product_of;
use problem_text::LineEnd;
use std::alloc::Global;

/// The position of the cell that a tuple's values name, and the text after them.
#[derive(Clone, Copy, Debug)]
struct Named<'a> {
    place: usize,
    after: &'a [u8],
}

/// The cells of a function, and the text after its last tuple.
#[derive(Debug, Drop)]
pub struct ReadCells<'a> {
    pub cells: Vec<u64>,
    pub after: &'a [u8],
}

/// The cells of a function whose variables have these sizes. Each has the cost of the last tuple
/// that names it, or the default cost if no tuple does.
pub fn cells_of<'a>(
    alloc: Global,
    sizes: &[u16],
    text: &'a [u8],
) -> Result<ReadCells<'a>, LineEnd<Fault>>
    requires some { list_any (λ s. s == 0) sizes.now ≡ false }
    requires few { product sizes.now ≤ cell_limit }
    ensures read { Gives (λ r. (r.cells.items, place r.after.now)) result
        (cells_read sizes.now (place text.now)) }
    ensures many { IfOk result (λ r. length r.cells.items ≡ product sizes.now) }
{
    let default = next_number(text)?;
    let count = next_number(default.after)?;
    let mut cells = vec![in alloc; default.value; product_of(sizes)]?;
    let after = fill(sizes, count.value, count.after, cells.as_mut_slice())?;
    Ok(ReadCells { cells, after })
}

/// Gives each cell the cost of the last of `count` tuples that names it.
fn fill<'a>(
    sizes: &[u16],
    count: u64,
    text: &'a [u8],
    cells: &mut [u64],
) -> Result<&'a [u8], LineEnd<Fault>>
    requires some { list_any (λ s. s == 0) sizes.now ≡ false }
    requires few { product sizes.now ≤ cell_limit }
    requires many { length cells.old ≡ product sizes.now }
    ensures read { Gives (λ after. (cells.new, place after.now)) result
        (filled sizes.now cells.old (tuples_read sizes.now count (place text.now))) }
    ensures many { length cells.new ≡ product sizes.now }
{
    let mut rest = text;
    for _ in 0..count {
        let named = named_cell(sizes, rest)?;
        let cost = next_number(named.after)?;
        cells[named.place] = cost.value;
        rest = cost.after;
    }
    Ok(rest)
}

/// The cell named by the values that a text begins with: one value for each size, below it.
fn named_cell<'a>(sizes: &[u16], text: &'a [u8]) -> Result<Named<'a>, LineEnd<Fault>>
    requires some { list_any (λ s. s == 0) sizes.now ≡ false }
    requires few { product sizes.now ≤ cell_limit }
    ensures read { Gives (λ n. (n.place, place n.after.now)) result
        (named 0 sizes.now (values_read sizes.now (place text.now))) }
    ensures inside { IfOk result (λ n. n.place < product sizes.now) }
{
    let mut cell: usize = 0;
    let mut rest = text;
    for size in sizes {
        let number = next_number(rest)?;
        if number.value >= u64::from(*size) {
            return Err(fault_before(number.after, WcspKind::Value));
        }
        cell = cell * usize::from(*size) + number.value as usize;
        rest = number.after;
    }
    Ok(Named {
        place: cell,
        after: rest,
    })
}
