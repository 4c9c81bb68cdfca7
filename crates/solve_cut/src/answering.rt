//! The answer of the method cut, from the result of a cut.

ghost use Rattle.std.specs.Prelude.{◌≡◌, ◌<◌, ◌≤◌, IfOk};
ghost use Rattle.dcop_base.specs.Limits.{joined_limit, size_limit};
ghost use Rattle.certificate_text.specs.Named.{CanTell};
ghost use Rattle.pseudotree.specs.DepthFirst.{dfs};
ghost use Rattle.pseudotree.specs.Pseudotree.{IsPseudotreeOf};
ghost use Rattle.minimised_problem.specs.Goal.{problem_solved};
ghost use Rattle.problem_text.specs.Steps.{declared_by};
ghost use Rattle.solve_methods.specs.Goal.{TellsRight};
ghost use Rattle.solve_report.specs.AnswerText.{HasText};
ghost use Rattle.solve_cut.specs.Certified.{certificate_if};
ghost use Rattle.solve_cut.specs.Cut.{AnswersCut, GivesCut, IsBestCut, IsCutReport, IsRefusalAnswer};

use crate::cutting::cut_for;
use certificate_text::{Certificate, CutList, Ending, Method, Report};
use cut_dpop::{CutEnd, CutFault, kept_tables_certify};
use dcop_base::{NoMemory, VarList, cost_of, problem_is_whole};
use dcop_edge::Gate;
use problem_text::ProblemFile;
use pseudotree::{Tree, depth_first_trees_are_linked};
use run_laws::{cut_answers_are_optimal, cut_sets_are_one};
use solve_report::Answer;
use std::alloc::Global;
use std::thread::Threads;

/// The answer of the method cut on a file, from the depth-first tree of the problem solved for it:
/// a report, or that the cut has too many turns or sends too many cells. No joined table of any
/// turn has more than `limit` cells. At most `workers` workers share the agents of a turn, and each
/// visit of an agent passes the gate; no clause speaks of these. `keeps` says whether a certificate
/// is requested: the tables of all turns are then kept and count as cells that are sent.
///
/// # Errors
///
/// [`NoMemory`] if memory runs out.
pub fn cut_answer<R: Threads + Sync, G: Gate>(
    rt: &R,
    alloc: Global,
    file: ProblemFile,
    tree: Tree,
    limit: u64,
    workers: u32,
    keeps: bool,
    gate: &G,
) -> Result<Answer, NoMemory>
    requires tree { IsPseudotreeOf (problem_solved file) tree }
    requires paths { tree.paths ≡ dfs (problem_solved file) }
    requires least { size_limit ≤ limit }
    requires most { limit ≤ joined_limit }
    requires workers { 0 < workers }
    ensures belongs { IfOk result (AnswersCut (declared_by file) limit keeps) }
    ensures right { IfOk result TellsRight }
    ensures told { IfOk result HasText }
{
    let cut = cut_for(rt, alloc, &file, &tree, limit, workers, keeps, gate);
    answer_of(file, limit, keeps, cut)
}

/// The answer from the result of a cut of the problem solved for a file.
fn answer_of(
    file: ProblemFile,
    limit: u64,
    keeps: bool,
    cut: Result<CutEnd, CutFault>,
) -> Result<Answer, NoMemory>
    requires least { size_limit ≤ limit }
    requires cut { GivesCut (problem_solved file) limit keeps cut }
    ensures belongs { IfOk result (AnswersCut (declared_by file) limit keeps) }
    ensures right { IfOk result TellsRight }
    ensures told { IfOk result HasText }
{
    cut_answers_are_optimal();
    cut_sets_are_one();
    kept_tables_certify();
    depth_first_trees_are_linked();
    problem_is_whole(&file.problem);
    match cut {
        Ok(end) => Ok(Answer::Report {
            report: cut_report(&file, keeps, end),
            file,
        }),
        Err(fault) => refusal_answer(fault),
    }
}

/// The answer if a cut is refused.
fn refusal_answer(fault: CutFault) -> Result<Answer, NoMemory>
    ensures belongs { IfOk result (IsRefusalAnswer fault) }
    ensures right { IfOk result TellsRight }
    ensures told { IfOk result HasText }
{
    match fault {
        CutFault::TooMany { turns } => Ok(Answer::ManyTurns { turns }),
        CutFault::Total { cells } => Ok(Answer::WideTotal { cells }),
        CutFault::NoMemory => Err(NoMemory),
    }
}

/// The report of the end of a cut, with a certificate if one is requested.
fn cut_report(file: &ProblemFile, keeps: bool, end: CutEnd) -> Report
    requires { IsBestCut file.now keeps end }
    ensures form { IsCutReport file.now end.cut keeps result }
    ensures values { result.values ≡ end.values }
    ensures told { CanTell result file.now }
{
    let cost = cost_of(&file.problem, end.values.as_slice());
    Report {
        status: Ending::Solved,
        method: Method::Cut,
        goal: file.goal,
        error: 0,
        deliveries: end.deliveries,
        cost,
        lower: cost,
        upper: cost,
        values: end.values,
        certificate: certificate_if(keeps, end.cut, end.tables),
    }
}

/// The certificate of a cut and its turns, if one is requested.
fn certificate_if(keeps: bool, cut: VarList, turns: CutList) -> Option<Certificate>
    ensures { result ≡ certificate_if keeps cut turns }
{
    if keeps {
        Some(Certificate::Cut { cut, turns })
    } else {
        None
    }
}
