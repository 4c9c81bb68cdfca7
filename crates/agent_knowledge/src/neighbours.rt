//! The neighbours of all variables.

ghost use Rattle.std.specs.Prelude.{◌≡◌, ◌<◌, ◌&&◌, [], length, replicate, map, IfOk, OnOk};
ghost use Rattle.std.specs.List.{All, range_with_len};
ghost use Rattle.dcop_base.specs.Table.{has};
ghost use Rattle.dcop_base.specs.Graph.{share_table, are_joined, neighbours};
ghost use Rattle.agent_knowledge.specs.Rows.{AreAscending, Adds};

use crate::row::add_others;
use dcop_base::{NoMemory, Problem, Table, VarId, VarList, problem_is_whole};
use std::alloc::Global;

/// The neighbours of each variable, ascending.
pub(crate) fn neighbour_rows(alloc: Global, problem: &Problem) -> Result<Vec<VarList>, NoMemory>
    ensures { IfOk result (λ rows. rows.items ≡ map (neighbours problem.now) (range_with_len 0 (length problem.now.sizes))) }
{
    let mut rows = empty_rows(alloc, problem.sizes.as_slice().len())?;
    add_neighbours(rows.as_mut_slice(), problem)?;
    Ok(rows)
}

/// `count` empty lists.
fn empty_rows(alloc: Global, count: usize) -> Result<Vec<VarList>, NoMemory>
    ensures { IfOk result (λ rows. rows.items ≡ replicate count []) }
{
    let mut rows = Vec::with_capacity(alloc, count)?;
    for _ in 0..count {
        rows.push(VarList::new(alloc))?;
    }
    Ok(rows)
}

/// Adds the neighbours of each variable to its list. The lists are empty at the start.
fn add_neighbours(rows: &mut [VarList], problem: &Problem) -> Result<(), NoMemory>
    requires { rows.old ≡ replicate (length problem.now.sizes) [] }
    ensures added { OnOk result (rows.new ≡ map (neighbours problem.now) (range_with_len 0 (length problem.now.sizes))) }
    ensures size { length rows.new ≡ length rows.old }
{
    problem_is_whole(problem);
    add_scopes(rows, problem.tables.as_slice())?;
    add_joints(rows, problem.joints.as_slice())?;
    Ok(())
}

/// Adds the variables of each table to each other's lists.
fn add_scopes(rows: &mut [VarList], tables: &[Table]) -> Result<(), NoMemory>
    requires within { All (λ t. All (λ v. v < length rows.old) t.scope) tables.now }
    requires ascend { AreAscending rows.old }
    ensures added { OnOk result (Adds (share_table tables.now) rows.old rows.new) }
    ensures size { length rows.new ≡ length rows.old }
{
    for table in tables {
        add_scope(rows, table.scope.as_slice())?;
    }
    Ok(())
}

/// Adds the variables of each joint to each other's lists.
fn add_joints(rows: &mut [VarList], joints: &[(VarId, VarId)]) -> Result<(), NoMemory>
    requires within { All (λ j. (j.0 < length rows.old) × (j.1 < length rows.old)) joints.now }
    requires ascend { AreAscending rows.old }
    ensures added { OnOk result (Adds (are_joined joints.now) rows.old rows.new) }
    ensures size { length rows.new ≡ length rows.old }
{
    for joint in joints {
        let (first, second) = *joint;
        add_scope(rows, &[first, second])?;
    }
    Ok(())
}

/// Adds the variables of a scope to each other's lists.
fn add_scope(rows: &mut [VarList], scope: &[VarId]) -> Result<(), NoMemory>
    requires within { All (λ v. v < length rows.old) scope.now }
    requires ascend { AreAscending rows.old }
    ensures added { OnOk result (Adds (λ u v. has scope.now u && has scope.now v) rows.old rows.new) }
    ensures size { length rows.new ≡ length rows.old }
{
    for me in scope {
        add_others(&mut rows[me.0 as usize], *me, scope)?;
    }
    Ok(())
}
