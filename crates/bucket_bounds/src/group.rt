//! Groups of a bucket's tables.

ghost use Rattle.std.specs.Prelude.{◌≡◌, ℕ, ◌*◌, ◌<◌, ◌≤◌, [], ◌∷◌, ◌++◌, true, length, IfOk, IfNone, IfSome, OnOk, slice_index_or};
ghost use Rattle.std.specs.List.{All};
ghost use Rattle.dcop_base.specs.Limits.{joined_limit};
ghost use Rattle.shared_costs.specs.Tables.{IsTableOver};
ghost use Rattle.bucket_bounds.specs.Groups.{IsGroupOf, AddsTo, AreGroups, FitsLimit};
ghost use Rattle.bucket_bounds.specs.Parting.{IsTooWideFor, ArePartedDuly};

use crate::union::{add_vars, cells_with};
use dcop_base::{NoMemory, Table, VarId, VarList};
use std::alloc::Global;

/// A group of tables that are joined.
#[derive(Drop)]
pub(crate) struct Group {
    /// The variables that they name, each once.
    pub vars: VarList,
    /// The number of cells of a table over these variables.
    pub cells: u64,
    /// The tables.
    pub tables: Vec<Table>,
}

/// Parts tables into groups. Each table joins the first group whose joined table has at most
/// `limit` cells together with it, or else opens a group.
pub(crate) fn groups_of(
    alloc: Global,
    sizes: &[u16],
    tables: &[Table],
    limit: u64,
) -> Result<Vec<Group>, NoMemory>
    requires tables { All (IsTableOver sizes.now) tables.now }
    requires limit { limit ≤ joined_limit }
    ensures groups { IfOk result
        (λ groups. AreGroups sizes.now limit tables.now groups.items) }
    ensures parted { IfOk result
        (λ groups. ArePartedDuly sizes.now limit tables.now groups.items) }
{
    let mut groups = Vec::new(alloc);
    for table in tables {
        match place_of(sizes, groups.as_slice(), table.scope.as_slice(), limit) {
            Some(place) => {
                let group = &mut groups.as_mut_slice()[place];
                add_to(sizes, group, table)?;
            }
            None => groups.push(group_of(alloc, sizes, table)?)?,
        }
    }
    Ok(groups)
}

/// The place of the first group that is within the limit together with the variables of a scope.
fn place_of(sizes: &[u16], groups: &[Group], scope: &[VarId], limit: u64) -> Option<usize>
    requires limit { limit ≤ joined_limit }
    ensures fits { IfSome result (λ k. (k < length groups.now)
        × ((none : Group) → FitsLimit sizes.now scope.now limit (slice_index_or groups.now k none))) }
    ensures full { IfNone result (All (IsTooWideFor sizes.now scope.now limit) groups.now) }
{
    for (place, group) in groups.iter().enumerate() {
        let cells = cells_with(sizes, group.vars.as_slice(), group.cells, scope);
        if cells <= limit {
            return Some(place);
        }
    }
    None
}

/// The group of one table.
fn group_of(alloc: Global, sizes: &[u16], table: &Table) -> Result<Group, NoMemory>
    requires { IsTableOver sizes.now table.now }
    ensures { IfOk result (λ group. IsGroupOf table.now group) }
{
    let mut vars = VarList::new(alloc);
    add_vars(&mut vars, table.scope.as_slice())?;
    let mut tables = Vec::new(alloc);
    tables.push(table.clone()?)?;
    Ok(Group {
        vars,
        cells: table.cells.as_slice().len() as u64,
        tables,
    })
}

/// Adds a table to a group.
fn add_to(sizes: &[u16], group: &mut Group, table: &Table) -> Result<(), NoMemory>
    requires { IsTableOver sizes.now table.now }
    ensures { OnOk result (AddsTo sizes.now group.old table.now group.new) }
{
    let cells = cells_with(
        sizes,
        group.vars.as_slice(),
        group.cells,
        table.scope.as_slice(),
    );
    add_vars(&mut group.vars, table.scope.as_slice())?;
    group.tables.push(table.clone()?)?;
    group.cells = cells;
    Ok(())
}
