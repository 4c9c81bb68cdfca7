//! The shared costs of a problem.

ghost use Rattle.std.specs.Prelude.{ℕ, ◌≤◌, List, length, IfOk};
ghost use Rattle.std.specs.List.{All};
ghost use Rattle.dcop_base.specs.Faults.{cell_count, greatest_sum};
ghost use Rattle.dcop_base.specs.Limits.{amount_limit, cell_limit, variable_limit};
ghost use Rattle.dcop_base.specs.Whole.{IsTableOf};
ghost use Rattle.shared_costs.specs.Shared.{AreSharedCosts};

use crate::depths::by_depth;
use crate::rounds::share_all;
use crate::scale::{scale_of, scaled_tables};
use dcop_base::{NoMemory, Problem, Sequence, Table, TableList, problem_is_whole};
use std::alloc::Global;

/// Tables by depth, with a list for each variable.
pub type TableLists = Sequence<TableList>;

/// The shared costs of a problem whose variables are in the order of a search.
#[derive(Debug, Drop)]
pub struct SharedCosts {
    /// The factor by which all costs are multiplied: a power of two from 1 to 64.
    pub scale: u64,
    /// For each variable, the tables whose greatest variable it is.
    pub depths: TableLists,
}

/// The costs of a problem, all multiplied by one scale, with parts of them moved between tables
/// that share a variable.
///
/// # Errors
///
/// [`NoMemory`] if it runs out of memory.
pub fn shared_costs(alloc: Global, problem: &Problem) -> Result<SharedCosts, NoMemory>
    ensures { IfOk result (AreSharedCosts problem.now) }
{
    problem_is_whole(problem);
    shared_of(alloc, problem.sizes.as_slice(), problem.tables.as_slice())
}

/// [`shared_costs`] of the problem with these sizes and tables, with any joints.
fn shared_of(alloc: Global, sizes: &[u16], tables: &[Table]) -> Result<SharedCosts, NoMemory>
    requires variables { length sizes.now ≤ variable_limit }
    requires each { All (IsTableOf sizes.now) tables.now }
    requires cells { cell_count tables.now ≤ cell_limit }
    requires sums { greatest_sum tables.now ≤ amount_limit }
    ensures { (joints : List (ℕ × ℕ)) → IfOk result (AreSharedCosts
        (record { sizes = sizes.now; tables = tables.now; joints = joints })) }
{
    let scale = scale_of(tables);
    let mut shared = scaled_tables(alloc, tables, scale)?;
    share_all(alloc, sizes, shared.as_mut_slice(), scale)?;
    let depths = by_depth(alloc, sizes, shared)?;
    Ok(SharedCosts { scale, depths })
}
