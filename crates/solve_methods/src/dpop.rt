//! The answer of DPOP.

ghost use Rattle.std.specs.Prelude.{◌≡◌, ◌≤◌, Bool, is_some, IfOk, IfSome};
ghost use Rattle.dcop_base.specs.Limits.{budget_limit};
ghost use Rattle.pseudotree.specs.DepthFirst.{dfs};
ghost use Rattle.pseudotree.specs.Width.{IsNarrow};
ghost use Rattle.protocol_steps.specs.TreeAgents.{dpop_agents};
ghost use Rattle.problem_text.specs.Steps.{declared_by};
ghost use Rattle.certificate_text.specs.Named.{CanTell};
ghost use Rattle.minimised_problem.specs.Goal.{problem_solved};
ghost use Rattle.solve_report.specs.AnswerText.{HasText};
ghost use Rattle.solve_methods.specs.Dpop.{AnswersDpop, HaveAgreed, IsDpopReport, wide_answer};
ghost use Rattle.solve_methods.specs.Dpop.{dpop_deliveries, AreBestChosen, GivesChosen};
ghost use Rattle.solve_methods.specs.Goal.{TellsRight};
ghost use Rattle.protocol_steps.specs.Outcomes.{HaveRun};
ghost use Rattle.solve_methods.specs.Tree.{rows_of};

use crate::tables::certificate_of;
use certificate_text::{Certificate, Ending, Method, Report};
use dcop_base::{NoMemory, Problem, ValList, cost_of, problem_is_whole};
use problem_text::{Names, ProblemFile};
use protocol_steps::{Outcome, rounds_are_a_run};
use pseudotree::{Wide, depth_first_trees_are_linked};
use run_laws::{dpop_runs, token_runs};
use solve_report::{Answer, NodeRowList};
use std::alloc::Global;

/// The values that agents chose, how many messages they took to choose them, and the tables that
/// show the values to be optimal, if these are requested.
#[derive(Debug, Drop)]
pub struct Chosen {
    values: ValList,
    deliveries: u64,
    certificate: Option<Certificate>,
}

/// The choice of the agents of a problem.
#[derive(Debug, Drop)]
pub enum Choice {
    /// These values.
    Values(Chosen),
    /// No values, since this is too wide in their tree.
    TooWide(Wide),
}

/// How many messages the DPOP agents of a problem take: for each variable but the root, one UTIL
/// from it and one VALUE to it. This is also a sufficient budget for them.
pub fn choice_deliveries(problem: &Problem) -> u64
    ensures all { result ≡ dpop_deliveries problem.now }
    ensures few { result ≤ budget_limit }
{
    2 * (problem.sizes.as_slice().len() as u64 - 1)
}

/// The values that the DPOP agents of a problem chose on its depth-first tree, with their tables as
/// a certificate if `nodes` tells each variable's parent and separator.
///
/// # Errors
///
/// [`NoMemory`] if memory runs out.
pub fn chosen_by(
    alloc: Global,
    problem: &Problem,
    nodes: Option<NodeRowList>,
    outcome: Outcome,
) -> Result<Chosen, NoMemory>
    requires narrow { IsNarrow problem.now (dfs problem.now) }
    requires nodes { IfSome nodes (λ rows. rows ≡ rows_of problem.now (dfs problem.now)) }
    requires run { HaveRun (dpop_deliveries problem.now) (dpop_agents problem.now (dfs problem.now)) outcome }
    ensures asked { IfOk result (λ chosen. is_some chosen.certificate ≡ is_some nodes) }
    ensures agreed { IfOk result (HaveAgreed problem.now) }
{
    token_runs();
    dpop_runs();
    rounds_are_a_run();
    problem_is_whole(problem);
    let certificate = certificate_of(alloc, nodes, &outcome.tables)?;
    Ok(Chosen {
        values: outcome.values,
        deliveries: outcome.deliveries,
        certificate,
    })
}

/// The answer of DPOP on a file, from what the agents chose on the problem solved: a report, or
/// what is too wide in their tree.
pub fn dpop_answer(file: ProblemFile, choice: Choice) -> Answer
    requires { (certified : Bool) × GivesChosen (problem_solved file) certified choice }
    ensures belongs { (certified : Bool) → GivesChosen (problem_solved file) certified choice
        → AnswersDpop (declared_by file) certified result }
    ensures right { TellsRight result }
    ensures told { HasText result }
{
    problem_is_whole(&file.problem);
    match choice {
        Choice::Values(chosen) => Answer::Report {
            report: dpop_report(&file, chosen),
            file,
        },
        Choice::TooWide(wide) => too_wide(wide, file.names),
    }
}

/// The answer if this is too wide in a tree of the variables with these names.
fn too_wide(wide: Wide, names: Names) -> Answer
    ensures { result ≡ wide_answer names wide }
{
    match wide {
        Wide::Agent { var, cells } => Answer::WideAgent { var, cells, names },
        Wide::Total { cells } => Answer::WideTotal { cells },
    }
}

/// The report of these values, with their certificate if there is one.
pub(crate) fn dpop_report(file: &ProblemFile, chosen: Chosen) -> Report
    requires { AreBestChosen file.now.goal file.now.problem chosen }
    ensures form { IsDpopReport file.now (is_some chosen.certificate) result }
    ensures values { result.values ≡ chosen.values }
    ensures told { CanTell result file.now }
{
    depth_first_trees_are_linked();
    let Chosen {
        values,
        deliveries,
        certificate,
    } = chosen;
    let cost = cost_of(&file.problem, values.as_slice());
    Report {
        status: Ending::Solved,
        method: Method::Dpop,
        goal: file.goal,
        error: 0,
        deliveries,
        cost,
        lower: cost,
        upper: cost,
        values,
        certificate,
    }
}
