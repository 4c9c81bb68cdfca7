//! What all agents know of a problem.

ghost use Rattle.std.specs.Prelude.{◌≡◌, ◌<◌, length, map, IfOk, OnOk, slice_index, slice_index_or};
ghost use Rattle.std.specs.List.{range_with_len};
ghost use Rattle.dcop_base.specs.Knowledge.{private_of, acquaintance_of};
ghost use Rattle.dcop_base.specs.Graph.{neighbours as neighbours_of};

use crate::neighbours::neighbour_rows;
use crate::tables::table_rows;
use dcop_base::{NoMemory, Private, Problem, Sequence, VarId, VarList, sizes_of};
use std::alloc::Global;
use std::mem;

/// What each agent knows without the costs, in the variables' order: its size, the variables that
/// share a table or a joint with it, and their sizes, but no tables. Takes time for the pairs of
/// each scope, the joints and the neighbours.
///
/// # Errors
///
/// [`NoMemory`] if memory runs out.
pub fn acquaintances(alloc: Global, problem: &Problem) -> Result<Vec<Private>, NoMemory>
    ensures { IfOk result (λ known. known.items ≡ map (acquaintance_of problem.now) (range_with_len 0 (length problem.now.sizes))) }
{
    let mut rows = neighbour_rows(alloc, problem)?;
    let mut known = Vec::with_capacity(alloc, rows.len())?;
    for me in 0..problem.sizes.as_slice().len() {
        let neighbours = take_row(&mut rows, me, VarList::new(alloc));
        known.push(acquaintance_with(alloc, problem, VarId(me as u32), neighbours)?)?;
    }
    Ok(known)
}

/// Takes the row at a place, and leaves another one there.
fn take_row<R>(rows: &mut Vec<R>, place: usize, other: R) -> R
    requires { place < length rows.old.items }
    ensures row { (d : _) → result ≡ slice_index_or rows.old.items place d }
    ensures rest { (k : _) (d : _) → place < k → slice_index_or rows.new.items k d ≡ slice_index_or rows.old.items k d }
    ensures size { length rows.new.items ≡ length rows.old.items }
{
    mem::replace(&mut rows[place], other)
}

/// What the agent of a variable with these neighbours knows without the costs.
fn acquaintance_with(
    alloc: Global,
    problem: &Problem,
    me: VarId,
    neighbours: VarList,
) -> Result<Private, NoMemory>
    requires inside { me < length problem.now.sizes }
    requires neighbours { neighbours ≡ neighbours_of problem.now me }
    ensures { IfOk result (λ own. own ≡ acquaintance_of problem.now me) }
{
    let sizes = problem.sizes.as_slice();
    let neighbour_sizes = sizes_of(alloc, sizes, neighbours.as_slice())?;
    Ok(Private {
        me,
        size: sizes[me.0 as usize],
        neighbours,
        neighbour_sizes,
        tables: Sequence::from_vec(Vec::new(alloc)),
    })
}

/// Gives each agent the tables that name its variable, in the problem's order. If the cells of a
/// table are shared, they are not copied.
///
/// # Errors
///
/// [`NoMemory`] if memory runs out. Some agents may have their tables in that case.
pub fn add_tables(alloc: Global, problem: &Problem, known: &mut [Private]) -> Result<(), NoMemory>
    requires { known.old ≡ map (acquaintance_of problem.now) (range_with_len 0 (length problem.now.sizes)) }
    ensures { OnOk result (known.new ≡ map (private_of problem.now) (range_with_len 0 (length problem.now.sizes))) }
{
    let mut rows = table_rows(alloc, problem)?;
    for me in 0..known.len() {
        known[me].tables = Sequence::from_vec(take_row(&mut rows, me, Vec::new(alloc)));
    }
    Ok(())
}

/// What each agent knows, in the variables' order: its size, the variables that share a table or a
/// joint with it, their sizes, and the tables that name its variable. Takes the time of
/// [`acquaintances`] plus that for the cells of tables that are not shared.
///
/// # Errors
///
/// [`NoMemory`] if memory runs out.
pub fn privates(alloc: Global, problem: &Problem) -> Result<Vec<Private>, NoMemory>
    ensures { IfOk result (λ known. known.items ≡ map (private_of problem.now) (range_with_len 0 (length problem.now.sizes))) }
{
    let mut known = acquaintances(alloc, problem)?;
    add_tables(alloc, problem, known.as_mut_slice())?;
    Ok(known)
}
