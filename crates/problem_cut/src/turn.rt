//! Turns and their slices.

ghost use Rattle.std.specs.Prelude.{◌≡◌, ◌++◌, ◌<◌, ◌≤◌, [], IfOk, OnOk, slice_index_or};
ghost use Rattle.dcop_base.specs.Table.{product};
ghost use Rattle.protocol_steps.specs.Values.{choices};
ghost use Rattle.run_laws.specs.Slice.{AreCut, AreCutValues, slice_of};

use cost_table::slice;
use dcop_base::{NoMemory, Problem, Val, ValList, VarList, problem_is_whole, product_of};
use run_laws::slices_are_one;
use std::alloc::Global;

/// The slice of a problem in a turn: the cut variables have size 1, and every table keeps the cells
/// at these values.
///
/// # Errors
///
/// [`NoMemory`] if memory runs out.
pub fn slice_at(
    alloc: Global,
    problem: &Problem,
    cut: &VarList,
    values: &ValList,
) -> Result<Problem, NoMemory>
    requires cut { AreCut problem.now cut.now }
    requires values { AreCutValues problem.now cut.now values.now }
    ensures { IfOk result (λ left. left ≡ slice_of problem.now cut.now values.now) }
{
    slices_are_one();
    let left = slice(alloc, problem, cut, values)?;
    problem_is_whole(&left);
    Ok(left)
}

/// The turn with this number, for cut variables of these sizes. Turns count from 0, in
/// lexicographic order of their values.
///
/// # Errors
///
/// [`NoMemory`] if memory runs out.
pub fn turn_at(alloc: Global, sizes: &[u16], number: usize) -> Result<ValList, NoMemory>
    requires few { product sizes.now ≤ usize.MAX }
    requires within { number < product sizes.now }
    ensures { IfOk result (λ turn. turn ≡ slice_index_or (choices sizes.now) number []) }
{
    let mut values = Vec::with_capacity(alloc, sizes.len())?;
    push_values(&mut values, sizes, number)?;
    Ok(ValList::from_vec(values))
}

/// Adds the values of the turn with this number after these.
fn push_values(values: &mut Vec<Val>, sizes: &[u16], number: usize) -> Result<(), NoMemory>
    requires few { product sizes.now ≤ usize.MAX }
    requires within { number < product sizes.now }
    ensures { OnOk result (values.new.items ≡ values.old.items ++ slice_index_or (choices sizes.now) number []) }
{
    let Some((_, later)) = sizes.split_first() else {
        return Ok(());
    };
    let block = product_of(later);
    values.push(Val((number / block) as u16))?;
    push_values(values, later, number % block)
}
