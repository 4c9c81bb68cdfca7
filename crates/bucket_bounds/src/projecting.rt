//! Projections of a bucket's joined tables by its variable.

ghost use Rattle.std.specs.Prelude.{◌≡◌, true, IfOk};
ghost use Rattle.std.specs.List.{All, AllZip};
ghost use Rattle.dcop_base.specs.Table.{has};
ghost use Rattle.util_project.specs.Projection.{IsProjection};

use dcop_base::{NoMemory, Table, VarId};
use std::alloc::Global;
use util_project::project;

/// The projections of these tables by a variable that each of them names.
pub(crate) fn projections_of(
    alloc: Global,
    tables: &[Table],
    var: VarId,
) -> Result<Vec<Table>, NoMemory>
    requires { All (λ t. has t.scope var ≡ true) tables.now }
    ensures { IfOk result (λ less. AllZip (λ t l. IsProjection t var l) tables.now less.items) }
{
    let mut projections = Vec::new(alloc);
    for table in tables {
        projections.push(project(alloc, table, var)?)?;
    }
    Ok(projections)
}
