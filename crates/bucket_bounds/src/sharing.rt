//! Sharing of costs among the joined tables of a bucket.

ghost use Rattle.std.specs.Prelude.{◌≡◌, ◌<◌, length, IfOk, OnOk};
ghost use Rattle.std.specs.List.{All};
ghost use Rattle.shared_costs.specs.Sharing.{IsShare};
ghost use Rattle.shared_costs.specs.Tables.{AreTablesOver};

use dcop_base::{NoMemory, Table, VarId};
use shared_costs::{SharedTable, share};
use std::alloc::Global;

/// These tables with a variable shared among all of them, if they are two or more.
pub(crate) fn shared_tables(
    alloc: Global,
    sizes: &[u16],
    tables: Vec<Table>,
    var: VarId,
) -> Result<Vec<Table>, NoMemory>
    requires tables { AreTablesOver sizes.now tables.items }
    requires var { var < length sizes.now }
    ensures { IfOk result (λ shared. IsShare sizes.now var tables.items shared.items) }
{
    if tables.len() < 2 {
        return Ok(tables);
    }
    let mut shared = copies_of(alloc, tables.as_slice())?;
    share_all(alloc, sizes, shared.as_mut_slice(), var)?;
    tables_of(alloc, shared)
}

/// Shares a variable among all of these tables.
fn share_all(
    alloc: Global,
    sizes: &[u16],
    tables: &mut [SharedTable],
    var: VarId,
) -> Result<(), NoMemory>
    requires tables { AreTablesOver sizes.now tables.old }
    requires var { var < length sizes.now }
    ensures { OnOk result (IsShare sizes.now var tables.old tables.new) }
{
    let places = places_below(alloc, tables.len())?;
    share(alloc, sizes, tables, places.as_slice(), var, 0)
}

/// Copies of these tables. Their cells may change.
fn copies_of(alloc: Global, tables: &[Table]) -> Result<Vec<SharedTable>, NoMemory>
    ensures { IfOk result (λ copies. copies.items ≡ tables.now) }
{
    let mut copies = Vec::new(alloc);
    for table in tables {
        copies.push(SharedTable::of(alloc, table)?)?;
    }
    Ok(copies)
}

/// All places in a list of `count` items that a `u32` can hold.
fn places_below(alloc: Global, count: usize) -> Result<Vec<u32>, NoMemory>
    ensures { IfOk result (λ places. All (λ k. k < count) places.items) }
{
    let mut places = Vec::new(alloc);
    for place in 0..u32::try_from(count).unwrap_or(u32::MAX) {
        places.push(place)?;
    }
    Ok(places)
}

/// The tables, with their memory.
fn tables_of(alloc: Global, shared: Vec<SharedTable>) -> Result<Vec<Table>, NoMemory>
    ensures { IfOk result (λ tables. tables.items ≡ shared.items) }
{
    let mut tables = Vec::new(alloc);
    for table in shared {
        tables.push(table.table())?;
    }
    Ok(tables)
}
