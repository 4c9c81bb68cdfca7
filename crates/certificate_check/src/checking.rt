//! Checking a report.

ghost use Rattle.std.specs.Prelude.{◌≡◌, IfOk, IsSome, Some};
ghost use Rattle.dcop_base.specs.Problem.{IsAssignment};
ghost use Rattle.certificate_text.specs.Fits.{Fits, FitsTables};
ghost use Rattle.minimised_problem.specs.Goal.{solved};
ghost use Rattle.certificate_check.specs.Verdicts.{IsVerdict, IsTablesVerdict, IsExact};
ghost use Rattle.certificate_check.specs.Verdicts.{IsTablesExact};
ghost use Rattle.minimised_problem.specs.Verdict.{ShowsBest};

use crate::behind::difference_in;
use crate::cutting::check_cut;
use crate::told::parents_of;
use crate::tree::tree_verdict;
use certificate_text::{Certificate, Report, Util, Verdict};
use dcop_base::{NoMemory, Problem, problem_is_whole};
use log_check::check_log;
use minimised_problem::{ProblemSolved, verdict_of};
use problem_text::ProblemFile;
use pseudotree::check_tree;
use std::alloc::Global;

/// Checks whether a report shows that no values are better by more than its gap.
///
/// The verdict is yes exactly when the report holds with its certificate. It has the cost and the
/// gap, which is the cost minus the lower bound, or for goal max the upper bound minus the cost.
/// The cost is then worse than the best sum of the file by at most the gap, whoever made the
/// report. Otherwise the verdict is no, with the first difference. For a certificate of tables the
/// order is: the tree, the scopes by variable, the cells by variable, cell and value, and the
/// numbers. For a cut it is: the tree of the first turn, the scopes by turn and variable, the cells
/// by turn, variable, cell and value, and the numbers. For a log it is: the first event that is not
/// lawful, the first stamp that is wrong, and what the report says about the end.
///
/// For tables the time is proportional to what the cells are compared with: for each cell and each
/// value of its variable, the variable's own tables and its children's tables, each by the
/// variables of its scope. For a cut this applies to each turn, and the turn's slice is made twice.
/// For a log the time is that of the agents' activations.
///
/// # Errors
///
/// [`NoMemory`] if memory runs out.
pub fn check(alloc: Global, file: &ProblemFile, report: &Report) -> Result<Verdict, NoMemory>
    requires certified { IsSome report.now.certificate }
    requires fits { Fits report.now file.now }
    ensures verdict { IfOk result (IsVerdict file.now report.now) }
    ensures exact { IfOk result (IsExact file.now report.now) }
    ensures best { IfOk result (ShowsBest file.now) }
{
    match &report.certificate {
        Some(Certificate::Tables(utils)) => check_tables(alloc, file, report, utils.as_slice()),
        Some(Certificate::Log(log)) => check_log(alloc, file, report, log.as_slice()),
        Some(Certificate::Cut { cut, turns }) => {
            check_cut(alloc, file, report, cut, turns.as_slice())
        }
        None => unreachable!(),
    }
}

/// The same for these tables, in the problem solved.
fn check_tables(
    alloc: Global,
    file: &ProblemFile,
    report: &Report,
    utils: &[Util],
) -> Result<Verdict, NoMemory>
    requires values { IsAssignment file.now.problem report.now.values }
    requires fits { FitsTables file.now.problem.sizes utils.now }
    ensures verdict { IfOk result (IsTablesVerdict file.now report.now utils.now) }
    ensures exact { IfOk result (IsTablesExact file.now report.now utils.now) }
    ensures best { IfOk result (ShowsBest file.now) }
{
    problem_is_whole(&file.problem);
    check_goal(alloc, file, report, utils)
}

/// The verdict on these tables in the problem solved.
fn check_goal(
    alloc: Global,
    file: &ProblemFile,
    report: &Report,
    utils: &[Util],
) -> Result<Verdict, NoMemory>
    requires values { IsAssignment file.now.problem report.now.values }
    requires fits { FitsTables file.now.problem.sizes utils.now }
    ensures { IfOk result (IsTablesVerdict file.now report.now utils.now) }
{
    let solved = ProblemSolved::of(alloc, file)?;
    check_in(alloc, file, solved.problem(), report, utils)
}

/// The verdict on these tables in this problem, which is the one solved.
fn check_in(
    alloc: Global,
    file: &ProblemFile,
    problem: &Problem,
    report: &Report,
    utils: &[Util],
) -> Result<Verdict, NoMemory>
    requires solved { problem.now ≡ solved file.now.goal file.now.problem }
    requires values { IsAssignment file.now.problem report.now.values }
    requires turned { IsAssignment problem.now report.now.values }
    requires fits { FitsTables problem.now.sizes utils.now }
    ensures { IfOk result (IsTablesVerdict file.now report.now utils.now) }
{
    let parents = parents_of(alloc, problem, utils)?;
    match check_tree(alloc, problem, parents.as_slice()) {
        Ok(tree) => {
            let differs = difference_in(
                alloc,
                file,
                problem,
                &tree,
                parents.as_slice(),
                report,
                utils,
            )?;
            Ok(verdict_of(file, report, differs))
        }
        Err(fault) => tree_verdict(fault),
    }
}
