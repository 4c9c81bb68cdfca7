//! Cells of at least top, and the cost that they become.

ghost use Rattle.std.specs.Prelude.{◌≡◌, ◌≤◌, ◌+◌, map, min};
ghost use Rattle.dcop_base.specs.Limits.{amount_limit};
ghost use Rattle.wcsp_text.specs.Problems.{greatest_below, soft_sum, raised as raised_cell};

use crate::function::Function;
use dcop_base::CAP;

/// 1 plus the sum of the functions' greatest cells below `top`, or 2^64 - 1 if it is more.
pub fn hard_of(functions: &[Function], top: u64) -> u64
    ensures { result ≡ min (1 + soft_sum top functions.now) u64.MAX }
{
    let mut sum: u64 = 0;
    for function in functions {
        sum = sum.saturating_add(greatest_soft(function.cells.as_slice(), top));
    }
    sum.saturating_add(1)
}

/// The greatest of the cells below `top`, or 0 if there is none.
fn greatest_soft(cells: &[u64], top: u64) -> u64
    ensures { result ≡ greatest_below top cells.now }
{
    let mut greatest: u64 = 0;
    for cell in cells {
        if *cell < top {
            greatest = greatest.max(*cell);
        }
    }
    greatest
}

/// Replaces each cell of at least `top` by `hard`. A cell above [`CAP`] then becomes [`CAP`], which
/// no problem allows.
pub fn raise(cells: &mut [u64], top: u64, hard: u64)
    ensures { cells.new ≡ map (λ c. min (raised_cell top hard c) amount_limit) cells.old }
{
    for cell in cells.iter_mut() {
        *cell = raised(*cell, top, hard).min(CAP);
    }
}

/// The cell, or `hard` if the cell is at least `top`.
fn raised(cell: u64, top: u64, hard: u64) -> u64
    ensures { result ≡ raised_cell top hard cell }
{
    if cell >= top { hard } else { cell }
}
