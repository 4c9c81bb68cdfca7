//! What a bucket sends from its projections.

ghost use Rattle.std.specs.Prelude.{◌≡◌, min, OnOk, IfOk};
ghost use Rattle.std.specs.List.{fold};
ghost use Rattle.bucket_bounds.specs.ByCells.{AreRising};
ghost use Rattle.bucket_bounds.specs.Keeping.{IsTableKept, IsKeptOf};

use dcop_base::{NoMemory, Table};
use std::alloc::Global;

/// What a bucket sends when the number of cells that its bounds may keep is limited.
#[derive(Drop)]
pub(crate) struct Kept {
    /// The projections that are kept.
    pub sent: Vec<Table>,
    /// The sum of the least cells of the others.
    pub fixed: u64,
    /// The number of the others that have variables.
    pub replaced: u64,
    /// The number of cells that may still be kept.
    pub room: u64,
}

/// Keeps projections in their order while there is room for their cells, and replaces the others by
/// their least cell. A projection without variables is always replaced by its only cell.
pub(crate) fn kept_of(alloc: Global, projections: &[Table], room: u64) -> Result<Kept, NoMemory>
    requires { AreRising projections.now }
    ensures { IfOk result (IsKeptOf room projections.now) }
{
    let mut kept = Kept {
        sent: Vec::new(alloc),
        fixed: 0,
        replaced: 0,
        room,
    };
    for table in projections {
        keep(&mut kept, table)?;
    }
    Ok(kept)
}

/// Keeps a projection or replaces it by its least cell.
fn keep(kept: &mut Kept, table: &Table) -> Result<(), NoMemory>
    ensures { OnOk result (IsTableKept kept.old table.now kept.new) }
{
    let least = least_of(table.cells.as_slice());
    if table.scope.as_slice().is_empty() {
        kept.fixed = kept.fixed.saturating_add(least);
        return Ok(());
    }
    let cells = table.cells.as_slice().len() as u64;
    if kept.room < cells {
        kept.fixed = kept.fixed.saturating_add(least);
        kept.replaced = kept.replaced.saturating_add(1);
        return Ok(());
    }
    kept.sent.push(table.clone()?)?;
    kept.room -= cells;
    Ok(())
}

/// The least cell, or `u64::MAX` if there is none.
fn least_of(cells: &[u64]) -> u64
    ensures { result ≡ fold min u64.MAX cells.now }
{
    cells.iter().fold(u64::MAX, |least, cell| least.min(*cell))
}
