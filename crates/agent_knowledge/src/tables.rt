//! The tables of all variables.

ghost use Rattle.std.specs.Prelude.{◌≡◌, ◌<◌, ◌++◌, ◌∷◌, ℕ, false, [], length, map, replicate, IfOk, OnOk, if◌then◌else◌, slice_index_or};
ghost use Rattle.std.specs.List.{All, filter, range_with_len};
ghost use Rattle.dcop_base.specs.Table.{has, has_repeat};
ghost use Rattle.agent_knowledge.specs.Rows.{rows_in};

use dcop_base::{NoMemory, Problem, Table, problem_is_whole};
use std::alloc::Global;

/// The tables that name each variable, in the problem's order.
pub(crate) fn table_rows(alloc: Global, problem: &Problem) -> Result<Vec<Vec<Table>>, NoMemory>
    ensures size { IfOk result (λ rows. length rows.items ≡ length problem.now.sizes) }
    ensures rows { IfOk result (λ rows. (v : ℕ) → v < length problem.now.sizes → slice_index_or (rows_in rows.items) v [] ≡ filter (λ t. has t.scope v) problem.now.tables) }
{
    problem_is_whole(problem);
    let mut rows = empty_rows(alloc, problem)?;
    for table in problem.tables.as_slice() {
        push_table(rows.as_mut_slice(), table)?;
    }
    Ok(rows)
}

/// An empty list for each variable, with room for the tables that name it.
fn empty_rows(alloc: Global, problem: &Problem) -> Result<Vec<Vec<Table>>, NoMemory>
    ensures { IfOk result (λ rows. rows_in rows.items ≡ replicate (length problem.now.sizes) []) }
{
    let counts = table_counts(alloc, problem)?;
    let mut rows = Vec::with_capacity(alloc, counts.len())?;
    for count in counts.as_slice() {
        rows.push(Vec::with_capacity(alloc, *count)?)?;
    }
    Ok(rows)
}

/// For each variable, the number of tables that name it.
fn table_counts(alloc: Global, problem: &Problem) -> Result<Vec<usize>, NoMemory>
    ensures { IfOk result (λ counts. length counts.items ≡ length problem.now.sizes) }
{
    problem_is_whole(problem);
    let mut counts = vec![in alloc; 0; problem.sizes.as_slice().len()]?;
    for table in problem.tables.as_slice() {
        count_table(counts.as_mut_slice(), table);
    }
    Ok(counts)
}

/// Adds one to the count of each variable that a table names.
fn count_table(counts: &mut [usize], table: &Table)
    requires { All (λ v. v < length counts.old) table.now.scope }
    ensures { length counts.new ≡ length counts.old }
{
    for var in table.scope.as_slice() {
        let place = var.0 as usize;
        counts[place] = counts[place].saturating_add(1);
    }
}

/// Adds a table to the list of each variable that it names.
fn push_table(rows: &mut [Vec<Table>], table: &Table) -> Result<(), NoMemory>
    requires within { All (λ v. v < length rows.old) table.now.scope }
    requires once { has_repeat table.now.scope ≡ false }
    ensures pushed { OnOk result ((v : ℕ) → v < length rows.old → slice_index_or (rows_in rows.new) v []
        ≡ slice_index_or (rows_in rows.old) v [] ++ (if has table.now.scope v then table.now ∷ [] else [])) }
    ensures size { length rows.new ≡ length rows.old }
{
    for var in table.scope.as_slice() {
        rows[var.0 as usize].push(table.clone()?)?;
    }
    Ok(())
}
