//! Joined tables of groups.

ghost use Rattle.std.specs.Prelude.{◌≡◌, ◌≤◌, ◌∷◌, IfOk};
ghost use Rattle.std.specs.List.{All, AllZip};
ghost use Rattle.dcop_base.specs.Limits.{joined_limit};
ghost use Rattle.dcop_base.specs.Table.{IsTable};
ghost use Rattle.util_join.specs.Join.{LiesIn};
ghost use Rattle.bucket_bounds.specs.Groups.{IsGroup};
ghost use Rattle.bucket_bounds.specs.Union.{IsTurned};
ghost use Rattle.bucket_bounds.specs.Joining.{AreUncapped, HasGainedCosts, IsZeroFor};
ghost use Rattle.bucket_bounds.specs.Parts.{IsJoinOf};

use crate::group::Group;
use dcop_base::{NoMemory, Table, VarId, VarList, sizes_of};
use std::alloc::Global;
use util_join::{JoinFault, Joined};

/// The joined tables of these groups, in the same order.
pub(crate) fn joined_tables(
    alloc: Global,
    sizes: &[u16],
    groups: &[Group],
) -> Result<Vec<Table>, NoMemory>
    requires groups { All (IsGroup sizes.now joined_limit) groups.now }
    requires capped { All (λ g. AreUncapped sizes.now g.tables.items) groups.now }
    ensures { IfOk result (λ tables.
        AllZip (λ g t. IsJoinOf sizes.now g.tables.items t) groups.now tables.items) }
{
    let mut tables = Vec::new(alloc);
    for group in groups {
        tables.push(joined_of(alloc, sizes, group)?)?;
    }
    Ok(tables)
}

/// The joined table of a group: the sum of its tables. For one table it is that table.
fn joined_of(alloc: Global, sizes: &[u16], group: &Group) -> Result<Table, NoMemory>
    requires group { IsGroup sizes.now joined_limit group.now }
    requires capped { AreUncapped sizes.now group.now.tables.items }
    ensures { IfOk result (IsJoinOf sizes.now group.now.tables.items) }
{
    if let [table] = group.tables.as_slice() {
        return Ok(table.clone()?);
    }
    let mut joined = zeros_for(alloc, sizes, group)?;
    add_all(&mut joined, group.tables.as_slice());
    let table = joined.table();
    table_is_whole(&table);
    Ok(table)
}

/// A joined table of zeros over the variables of a group, with the last variable first. All tables
/// that are added name that variable, so the cells to which one cell is added are closer together.
fn zeros_for(alloc: Global, sizes: &[u16], group: &Group) -> Result<Joined, NoMemory>
    requires group { IsGroup sizes.now joined_limit group.now }
    requires few { group.now.cells ≤ joined_limit }
    ensures { IfOk result (IsZeroFor sizes.now group.now.vars) }
{
    let over = last_first(alloc, group.vars.as_slice())?;
    let own = sizes_of(alloc, sizes, over.as_slice())?;
    match Joined::new(alloc, over, own) {
        Ok(joined) => Ok(joined),
        Err(JoinFault::TooWide { .. }) => unreachable!(),
        Err(JoinFault::NoMemory) => Err(NoMemory),
    }
}

/// These variables, with the last one first.
fn last_first(alloc: Global, vars: &[VarId]) -> Result<VarList, NoMemory>
    ensures { IfOk result (IsTurned vars.now) }
{
    match vars.split_last() {
        Some((last, others)) => with_first(alloc, *last, others),
        None => Ok(VarList::new(alloc)),
    }
}

/// A variable, followed by the others.
fn with_first(alloc: Global, first: VarId, others: &[VarId]) -> Result<VarList, NoMemory>
    ensures { IfOk result (λ vars. vars ≡ first ∷ others.now) }
{
    let mut vars = VarList::new(alloc);
    vars.push(first)?;
    for var in others {
        vars.push(*var)?;
    }
    Ok(vars)
}

/// Adds these tables.
fn add_all(joined: &mut Joined, tables: &[Table])
    requires { All (LiesIn joined.old.scope joined.old.sizes) tables.now }
    ensures { HasGainedCosts tables.now joined.old joined.new }
{
    for table in tables {
        joined.add(table);
    }
}

/// Shows that a table is whole. This is known of a table that is read, so no more is done.
fn table_is_whole(table: &Table)
    ensures { IsTable table.now }
{
    let _ = table.scope.as_slice();
}
