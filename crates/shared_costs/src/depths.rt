//! Tables in lists by their depth.

ghost use Rattle.std.specs.Prelude.{◌≡◌, [], ◌<◌, ◌≤◌, true, length, IfOk, map};
ghost use Rattle.std.specs.List.{All};
ghost use Rattle.dcop_base.specs.Table.{has};
ghost use Rattle.shared_costs.specs.Tables.{IsTableOver};
ghost use Rattle.shared_costs.specs.Depths.{AreByDepth};

use crate::table::SharedTable;
use dcop_base::{NoMemory, Sequence, Table, TableList, VarId};
use std::alloc::Global;

/// These tables in lists by their depth. The depth of a table is its greatest variable.
pub(crate) fn by_depth(
    alloc: Global,
    sizes: &[u16],
    tables: Vec<SharedTable>,
) -> Result<Sequence<TableList>, NoMemory>
    requires each { All (IsTableOver sizes.now) tables.items }
    requires some { All (λ t. 1 ≤ length t.scope) tables.items }
    ensures { IfOk result (AreByDepth sizes.now tables.items []) }
{
    let lists = lists_by_depth(alloc, sizes, tables)?;
    let mut depths = Vec::with_capacity(alloc, sizes.len())?;
    for list in lists {
        depths.push(TableList::from_vec(list))?;
    }
    Ok(Sequence::from_vec(depths))
}

/// [`by_depth`], in lists that can grow.
fn lists_by_depth(
    alloc: Global,
    sizes: &[u16],
    mut tables: Vec<SharedTable>,
) -> Result<Vec<Vec<Table>>, NoMemory>
    requires each { All (IsTableOver sizes.now) tables.items }
    requires some { All (λ t. 1 ≤ length t.scope) tables.items }
    ensures { IfOk result (λ lists. AreByDepth sizes.now tables.items []
        (map (λ list. list.items) lists.items)) }
{
    let mut lists = Vec::with_capacity(alloc, sizes.len())?;
    for _ in 0..sizes.len() {
        lists.push(Vec::new(alloc))?;
    }
    while let Some(table) = tables.pop() {
        let depth = last_of(table.scope());
        lists[depth.0 as usize].push(table.shared(alloc)?)?;
    }
    Ok(lists)
}

/// The greatest of these variables.
fn last_of(scope: &[VarId]) -> VarId
    requires { 1 ≤ length scope.now }
    ensures stands { has scope.now result ≡ true }
    ensures last { All (λ v. v ≤ result) scope.now }
{
    let mut last = scope[0];
    for var in scope {
        if *var > last {
            last = *var;
        }
    }
    last
}
