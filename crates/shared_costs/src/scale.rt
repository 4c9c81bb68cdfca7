//! The scale of costs, and scaled tables.

ghost use Rattle.std.specs.Prelude.{◌≡◌, ◌*◌, ◌≤◌, ◌+◌, IfOk};
ghost use Rattle.std.specs.Int.{IsPowerOfTwo};
ghost use Rattle.dcop_base.specs.Faults.{greatest_sum};
ghost use Rattle.dcop_base.specs.Limits.{amount_limit};
ghost use Rattle.dcop_base.specs.Table.{greatest};
ghost use Rattle.shared_costs.specs.Scales.{AreScaled};

use crate::table::SharedTable;
use dcop_base::{CAP, NoMemory, Table};
use std::alloc::Global;

/// The greatest scale of costs.
const MAX_SCALE: u64 = 64;

/// The greatest power of two up to [`MAX_SCALE`] with which the sum of the greatest cells of these
/// tables is at most [`CAP`].
pub(crate) fn scale_of(tables: &[Table]) -> u64
    requires { greatest_sum tables.now ≤ amount_limit }
    ensures power { IsPowerOfTwo result }
    ensures some { 1 ≤ result }
    ensures within { result * greatest_sum tables.now ≤ amount_limit }
{
    let sum = sum_of_greatest(tables);
    let mut scale = 1;
    while scale < MAX_SCALE && scale * 2 * sum <= CAP {
        scale *= 2;
    }
    scale
}

/// The sum of the greatest cells of these tables.
fn sum_of_greatest(tables: &[Table]) -> u64
    requires { greatest_sum tables.now ≤ amount_limit }
    ensures { result ≡ greatest_sum tables.now }
{
    let mut sum = 0;
    for table in tables {
        sum += greatest_of(table.cells.as_slice());
    }
    sum
}

/// The greatest cell, or 0 if there is none.
fn greatest_of(cells: &[u64]) -> u64
    ensures { result ≡ greatest cells.now }
{
    cells.iter().fold(0, |most, cell| most.max(*cell))
}

/// These tables with each cell multiplied by a scale.
pub(crate) fn scaled_tables(
    alloc: Global,
    tables: &[Table],
    scale: u64,
) -> Result<Vec<SharedTable>, NoMemory>
    requires { scale * greatest_sum tables.now ≤ amount_limit }
    ensures { IfOk result (λ scaled. AreScaled scale tables.now scaled.items) }
{
    let mut scaled = Vec::with_capacity(alloc, tables.len())?;
    for table in tables {
        scaled.push(SharedTable::scaled(alloc, table, scale)?)?;
    }
    Ok(scaled)
}
