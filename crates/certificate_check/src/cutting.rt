//! Checking the tables of a cut.

ghost use Rattle.std.specs.Prelude.{◌≡◌, ◌<◌, ◌≤◌, length, IfOk};
ghost use Rattle.dcop_base.specs.Limits.{amount_limit};
ghost use Rattle.dcop_base.specs.Problem.{IsAssignment};
ghost use Rattle.pseudotree.specs.Pseudotree.{IsPseudotreeOf};
ghost use Rattle.pseudotree.specs.Fault.{parents_of};
ghost use Rattle.certificate_text.specs.Fits.{FitsCut};
ghost use Rattle.certificate_text.specs.Turns.{first_tables};
ghost use Rattle.minimised_problem.specs.Goal.{solved};
ghost use Rattle.minimised_problem.specs.Told.{parents_told};
ghost use Rattle.minimised_problem.specs.Verdict.{ShowsBest};
ghost use Rattle.certificate_check.specs.Cells.{root_told};
ghost use Rattle.certificate_check.specs.Cuts.{cut_difference};
ghost use Rattle.certificate_check.specs.Verdicts.{IsCutVerdict, IsCutExact};

use crate::behind::root_in;
use crate::numbers::number_difference;
use crate::told::{parents_of, variable_count};
use crate::tree::tree_verdict;
use crate::turns::{cells_in_turns, cut_deliveries, least_cell, scopes_in_turns};
use certificate_text::{Differs, Report, Turn, Verdict, first_tables};
use dcop_base::{NoMemory, Problem, VarId, VarList, problem_is_whole};
use minimised_problem::{ProblemSolved, verdict_of};
use problem_text::ProblemFile;
use pseudotree::{Tree, check_tree};
use std::alloc::Global;

/// Checks whether the tables of these turns show that no better values exist.
pub(crate) fn check_cut(
    alloc: Global,
    file: &ProblemFile,
    report: &Report,
    cut: &VarList,
    turns: &[Turn],
) -> Result<Verdict, NoMemory>
    requires values { IsAssignment file.now.problem report.now.values }
    requires fits { FitsCut file.now.problem.sizes cut.now turns.now }
    requires deliveries { report.now.deliveries ≤ amount_limit }
    ensures verdict { IfOk result (IsCutVerdict file.now report.now cut.now turns.now) }
    ensures exact { IfOk result (IsCutExact file.now report.now cut.now turns.now) }
    ensures best { IfOk result (ShowsBest file.now) }
{
    problem_is_whole(&file.problem);
    check_cut_goal(alloc, file, report, cut, turns)
}

/// The verdict on these turns in the problem solved.
fn check_cut_goal(
    alloc: Global,
    file: &ProblemFile,
    report: &Report,
    cut: &VarList,
    turns: &[Turn],
) -> Result<Verdict, NoMemory>
    requires values { IsAssignment file.now.problem report.now.values }
    requires fits { FitsCut file.now.problem.sizes cut.now turns.now }
    ensures { IfOk result (IsCutVerdict file.now report.now cut.now turns.now) }
{
    let solved = ProblemSolved::of(alloc, file)?;
    check_cut_in(alloc, file, solved.problem(), report, cut, turns)
}

/// The verdict on these turns in this problem, which is the one solved.
fn check_cut_in(
    alloc: Global,
    file: &ProblemFile,
    problem: &Problem,
    report: &Report,
    cut: &VarList,
    turns: &[Turn],
) -> Result<Verdict, NoMemory>
    requires solved { problem.now ≡ solved file.now.goal file.now.problem }
    requires values { IsAssignment file.now.problem report.now.values }
    requires turned { IsAssignment problem.now report.now.values }
    requires fits { FitsCut problem.now.sizes cut.now turns.now }
    ensures { IfOk result (IsCutVerdict file.now report.now cut.now turns.now) }
{
    problem_is_whole(problem);
    let parents = parents_of(alloc, problem, first_tables(turns))?;
    match check_tree(alloc, problem, parents.as_slice()) {
        Ok(tree) => {
            let root = root_in(parents.as_slice());
            let differs = cut_difference(alloc, file, problem, &tree, root, report, cut, turns)?;
            Ok(verdict_of(file, report, differs))
        }
        Err(fault) => tree_verdict(fault),
    }
}

/// The first difference of the scopes, then of the cells, then of the numbers, if the parents of
/// the first turn are those of this tree of the problem solved.
fn cut_difference(
    alloc: Global,
    file: &ProblemFile,
    problem: &Problem,
    tree: &Tree,
    root: VarId,
    report: &Report,
    cut: &VarList,
    turns: &[Turn],
) -> Result<Option<Differs>, NoMemory>
    requires solved { problem.now ≡ solved file.now.goal file.now.problem }
    requires tree { IsPseudotreeOf problem.now tree.now }
    requires root { root ≡ root_told problem.now (first_tables turns.now) }
    requires within { root < length problem.now.sizes }
    requires values { IsAssignment file.now.problem report.now.values }
    requires turned { IsAssignment problem.now report.now.values }
    requires fits { FitsCut problem.now.sizes cut.now turns.now }
    ensures { IfOk result (λ differs.
        differs ≡ cut_difference file.now tree.now.paths cut.now turns.now report.now) }
{
    let differs = scopes_in_turns(alloc, problem, tree, cut, turns)?;
    if differs.is_some() {
        return Ok(differs);
    }
    let differs = cells_in_turns(alloc, problem, tree, cut, turns)?;
    if differs.is_some() {
        return Ok(differs);
    }
    let least = least_cell(root, turns);
    let deliveries = cut_deliveries(turns.len(), variable_count(&file.problem));
    Ok(number_difference(file, problem, least, deliveries, report))
}
