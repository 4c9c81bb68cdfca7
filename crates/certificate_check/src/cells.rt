//! The cells of a certificate's tables, compared with the sums that they may not exceed.

ghost use Rattle.std.specs.Prelude.{◌≡◌, ◌<◌, length, map, IfOk};
ghost use Rattle.pseudotree.specs.Pseudotree.{IsPseudotreeOf};
ghost use Rattle.certificate_text.specs.Fits.{FitsTables};
ghost use Rattle.minimised_problem.specs.Told.{told, variables};
ghost use Rattle.certificate_check.specs.Odometer.{IsAtCell, FitTogether, NamesNoneItself};
ghost use Rattle.certificate_check.specs.Differences.{first_of, cell_difference, table_difference};
ghost use Rattle.certificate_check.specs.Differences.{cells_difference};

use crate::odometer::advance;
use crate::parts::{child_tables, own_tables};
use crate::sums::sum_below;
use crate::told::{util_of, variable_count};
use certificate_text::{Differs, Util};
use dcop_base::{NoMemory, Problem, Table, Val, VarId};
use pseudotree::Tree;
use std::alloc::Global;

/// The first cell that is too large, by variable, cell and value.
pub(crate) fn cells_difference(
    alloc: Global,
    problem: &Problem,
    tree: &Tree,
    utils: &[Util],
) -> Result<Option<Differs>, NoMemory>
    requires tree { IsPseudotreeOf problem.now tree.now }
    requires fits { FitsTables problem.now.sizes utils.now }
    requires apart { NamesNoneItself problem.now utils.now }
    ensures { IfOk result (λ differs. differs ≡ first_of
        (cells_difference problem.now tree.now.paths utils.now) (variables problem.now)) }
{
    for index in 0..variable_count(problem) {
        let differs = variable_difference(alloc, problem, tree, utils, VarId(index as u32))?;
        if differs.is_some() {
            return Ok(differs);
        }
    }
    Ok(None)
}

/// The first cell of a variable's table that is too large.
fn variable_difference(
    alloc: Global,
    problem: &Problem,
    tree: &Tree,
    utils: &[Util],
    var: VarId,
) -> Result<Option<Differs>, NoMemory>
    requires tree { IsPseudotreeOf problem.now tree.now }
    requires fits { FitsTables problem.now.sizes utils.now }
    requires apart { NamesNoneItself problem.now utils.now }
    requires within { var < length problem.now.sizes }
    ensures { IfOk result (λ differs.
        differs ≡ cells_difference problem.now tree.now.paths utils.now var) }
{
    let own = own_tables(alloc, problem, tree, var)?;
    let children = child_tables(alloc, problem, tree, utils, var)?;
    let mut values = vec![in alloc; Val(0); variable_count(problem)]?;
    Ok(table_difference(
        problem.sizes.as_slice(),
        own.as_slice(),
        children.as_slice(),
        util_of(utils, var),
        values.as_mut_slice(),
    ))
}

/// The first cell of a table that is too large. `values` is an assignment of zeros, which receives
/// the values of one cell after the other.
fn table_difference(
    sizes: &[u16],
    own: &[&Table],
    children: &[&Util],
    util: &Util,
    values: &mut [Val],
) -> Option<Differs>
    requires fit { FitTogether sizes.now
        (map (λ t. t.now) own.now) (map (λ u. u.now) children.now) util.now }
    requires first { IsAtCell sizes.now util.now 0 values.old }
    ensures { result ≡ table_difference sizes.now
        (map (λ t. t.now) own.now) (map (λ u. u.now) children.now) util.now }
{
    for k in 0..util.cells.as_slice().len() {
        let differs = cell_difference(sizes, own, children, util, k, values);
        if differs.is_some() {
            return differs;
        }
        advance(sizes, util.scope.as_slice(), values);
    }
    None
}

/// The first value of a table's variable at which its cell k is too large. `values` is an
/// assignment with the values of that cell.
fn cell_difference(
    sizes: &[u16],
    own: &[&Table],
    children: &[&Util],
    util: &Util,
    k: usize,
    values: &mut [Val],
) -> Option<Differs>
    requires fit { FitTogether sizes.now
        (map (λ t. t.now) own.now) (map (λ u. u.now) children.now) util.now }
    requires within { k < length util.now.cells }
    requires at { IsAtCell sizes.now util.now k values.old }
    ensures first { result ≡ cell_difference sizes.now
        (map (λ t. t.now) own.now) (map (λ u. u.now) children.now) util.now k }
    ensures at { IsAtCell sizes.now util.now k values.new }
{
    let var = util.var;
    let left = util.cells.as_slice()[k];
    for value in 0..sizes[var.0 as usize] {
        values[var.0 as usize] = Val(value);
        let right = sum_below(sizes, own, children, values);
        if right < left {
            return Some(Differs::Cell {
                var,
                cell: k as u64,
                value: Val(value),
                left,
                right,
            });
        }
    }
    None
}
