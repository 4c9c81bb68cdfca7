//! The first difference after those of the tree.

ghost use Rattle.std.specs.Prelude.{◌≡◌, ◌<◌, ◌≤◌, length, is_none, IfOk};
ghost use Rattle.std.specs.List.{position, position_or_len};
ghost use Rattle.dcop_base.specs.Limits.{variable_limit};
ghost use Rattle.dcop_base.specs.Problem.{IsAssignment};
ghost use Rattle.pseudotree.specs.Pseudotree.{IsPseudotreeOf};
ghost use Rattle.pseudotree.specs.Fault.{parents_of};
ghost use Rattle.certificate_text.specs.Fits.{FitsTables};
ghost use Rattle.minimised_problem.specs.Goal.{solved};
ghost use Rattle.minimised_problem.specs.Told.{parents_told};
ghost use Rattle.certificate_check.specs.Cells.{root_cell};
ghost use Rattle.certificate_check.specs.Differences.{difference_in};

use crate::cells::cells_difference;
use crate::numbers::{dpop_deliveries, number_difference};
use crate::scopes::scopes_difference;
use crate::told::{util_of, variable_count};
use certificate_text::{Differs, Report, Util};
use dcop_base::{NoMemory, Problem, VarId, problem_is_whole};
use problem_text::ProblemFile;
use pseudotree::Tree;
use std::alloc::Global;

/// The first difference of the scopes, then of the cells, then of the numbers, if the parents are
/// those of this tree of the problem solved.
pub(crate) fn difference_in(
    alloc: Global,
    file: &ProblemFile,
    problem: &Problem,
    tree: &Tree,
    parents: &[Option<VarId>],
    report: &Report,
    utils: &[Util],
) -> Result<Option<Differs>, NoMemory>
    requires solved { problem.now ≡ solved file.now.goal file.now.problem }
    requires tree { IsPseudotreeOf problem.now tree.now }
    requires parents { parents.now ≡ parents_of tree.now.paths }
    requires told { parents.now ≡ parents_told problem.now utils.now }
    requires values { IsAssignment file.now.problem report.now.values }
    requires turned { IsAssignment problem.now report.now.values }
    requires fits { FitsTables problem.now.sizes utils.now }
    ensures { IfOk result (λ differs.
        differs ≡ difference_in file.now tree.now.paths utils.now report.now) }
{
    let differs = scopes_difference(problem, tree, utils);
    if differs.is_some() {
        return Ok(differs);
    }
    let differs = cells_difference(alloc, problem, tree, utils)?;
    if differs.is_some() {
        return Ok(differs);
    }
    let root = root_cell(problem, parents, utils);
    let deliveries = dpop_deliveries(variable_count(&file.problem));
    Ok(number_difference(file, problem, root, deliveries, report))
}

/// The root's one cell.
fn root_cell(problem: &Problem, parents: &[Option<VarId>], utils: &[Util]) -> u64
    requires parents { parents.now ≡ parents_told problem.now utils.now }
    requires root { position_or_len is_none parents.now < length problem.now.sizes }
    requires fits { FitsTables problem.now.sizes utils.now }
    ensures { result ≡ root_cell problem.now utils.now }
{
    problem_is_whole(problem);
    let root = VarId(root_of(parents) as u32);
    util_of(utils, root).cells.as_slice()[0]
}

/// The lowest variable without a parent, if one has none.
pub(crate) fn root_in(parents: &[Option<VarId>]) -> VarId
    requires few { length parents.now ≤ variable_limit }
    requires some { position_or_len is_none parents.now < length parents.now }
    ensures { result ≡ position_or_len is_none parents.now }
{
    VarId(root_of(parents) as u32)
}

/// The lowest variable without a parent; their number if each has one.
fn root_of(parents: &[Option<VarId>]) -> usize
    ensures { result ≡ position_or_len is_none parents.now }
{
    match found(parents) {
        Some(root) => root,
        None => parents.len(),
    }
}

/// The lowest variable without a parent, if there is one.
fn found(parents: &[Option<VarId>]) -> Option<usize>
    ensures { result ≡ position is_none parents.now }
{
    parents.iter().position(|parent| parent.is_none())
}
