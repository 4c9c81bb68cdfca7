//! The answer of ADOPT.

ghost use Rattle.std.specs.Prelude.{◌≡◌, ◌≤◌, if◌then◌else◌};
ghost use Rattle.dcop_base.specs.Whole.{IsProblem};
ghost use Rattle.pseudotree.specs.DepthFirst.{dfs};
ghost use Rattle.protocol_steps.specs.TreeAgents.{adopt_agents};
ghost use Rattle.dcop_optimum.specs.Goal.{top_of};
ghost use Rattle.problem_text.specs.Steps.{declared_by};
ghost use Rattle.certificate_text.specs.Named.{CanTell};
ghost use Rattle.certificate_text.specs.declared.report.Ending.TheVariants.{Solved as solved_end, Spent as spent_end};
ghost use Rattle.minimised_problem.specs.Goal.{problem_solved};
ghost use Rattle.solve_report.specs.AnswerText.{HasText};
ghost use Rattle.minimised_problem.specs.LogEnds.{least_known, lower_for, upper_for};
ghost use Rattle.solve_methods.specs.Adopt.{AnswersAdopt, IsAdoptReport};
ghost use Rattle.solve_methods.specs.Goal.{IsRightReport, TellsRight};
ghost use Rattle.solve_methods.specs.Reached.{HaveReached};
ghost use Rattle.solve_methods.specs.Certified.{certificate_of_log};
ghost use Rattle.solve_methods.specs.Kept.{HaveLogged};

use certificate_text::{Certificate, Ending, Method, Report};
use dcop_base::{Problem, ValList, cost_of, problem_is_whole};
use dcop_optimum::top_sum;
use problem_text::{Goal, ProblemFile};
use protocol_steps::{Outcome, rounds_are_a_run};
use run_laws::{adopt_bounds_enclose, adopt_ends, adopt_pending, token_runs};
use run_log::Log;
use solve_report::Answer;

/// The request to ADOPT agents.
#[derive(Clone, Copy, Debug, PartialEq, Eq)]
pub struct Asked {
    /// How far the cost of their values may be from the optimum, at most 2^62.
    pub error: u64,
    /// After how many deliveries they are stopped before they have ended, at most 10,000,000.
    pub budget: u64,
    /// Whether the log of their run is requested, as a certificate.
    pub certified: bool,
}

/// The outcome of agents, and the log of their run if one was kept.
#[derive(Debug, Drop)]
pub struct Logged {
    /// The outcome of their run.
    pub outcome: Outcome,
    /// The merged journals of all agents.
    pub log: Option<Log>,
}

/// What ADOPT agents have reached, in the problem solved.
#[derive(Debug, Drop)]
pub struct Reached {
    ending: Ending,
    deliveries: u64,
    values: ValList,
    /// A lower bound of the optimum.
    lower: u64,
    /// An upper bound of the optimum.
    upper: u64,
    /// The log of all agents, if it was kept.
    log: Option<Log>,
}

/// What the ADOPT agents of a problem have reached on its depth-first tree, whose root is variable
/// 0: the ending, the deliveries and the values of their run, the bounds that follow from those of
/// the root's agent and from what the values cost, and the log of the run if one was kept.
pub fn reached_by(problem: &Problem, asked: Asked, ran: Logged) -> Reached
    requires { HaveLogged asked.budget (adopt_agents problem.now (dfs problem.now) asked.error) asked.certified ran }
    ensures { HaveReached problem.now asked.error asked.budget asked.certified result }
{
    token_runs();
    rounds_are_a_run();
    adopt_bounds_enclose();
    adopt_pending();
    adopt_ends();
    problem_is_whole(problem);
    let Logged { outcome, log } = ran;
    let cost = cost_of(problem, outcome.values.as_slice());
    Reached {
        ending: ending_by(outcome.ended),
        deliveries: outcome.deliveries,
        values: outcome.values,
        lower: outcome.top.lower,
        upper: least_known(cost, outcome.top.upper),
        log,
    }
}

/// The answer of ADOPT on a file: the report of what the agents have reached on the problem solved,
/// with the log of their run if it is requested. The report is spent if an agent has not ended.
pub fn adopt_answer(file: ProblemFile, asked: Asked, reached: Reached) -> Answer
    requires { HaveReached (problem_solved file) asked.error asked.budget asked.certified reached }
    ensures belongs { AnswersAdopt (declared_by file) asked.error asked.budget asked.certified result }
    ensures right { TellsRight result }
    ensures told { HasText result }
{
    problem_is_whole(&file.problem);
    Answer::Report {
        report: adopt_report(&file, asked, reached),
        file,
    }
}

/// The report of what the agents have reached on the problem solved.
pub(crate) fn adopt_report(file: &ProblemFile, asked: Asked, reached: Reached) -> Report
    requires whole { IsProblem file.now.problem }
    requires reached { HaveReached (problem_solved file.now) asked.error asked.budget asked.certified reached }
    ensures form { IsAdoptReport file.now asked.error asked.budget asked.certified result }
    ensures right { IsRightReport file.now result }
    ensures told { CanTell result file.now }
{
    token_runs();
    adopt_bounds_enclose();
    adopt_ends();
    let Reached {
        ending,
        deliveries,
        values,
        lower,
        upper,
        log,
    } = reached;
    Report {
        status: ending,
        method: Method::Adopt,
        goal: file.goal,
        error: asked.error,
        deliveries,
        cost: cost_of(&file.problem, values.as_slice()),
        lower: lower_for(file.goal, &file.problem, lower, upper),
        upper: upper_for(file.goal, &file.problem, lower, upper),
        values,
        certificate: certificate_of_log(log),
    }
}

/// The lower bound of the best sum that these bounds of the optimum of the problem solved show.
fn lower_for(goal: Goal, problem: &Problem, lower: u64, upper: u64) -> u64
    requires { upper ≤ top_of problem.now }
    ensures { result ≡ lower_for goal problem.now lower upper }
{
    match goal {
        Goal::Min => lower,
        Goal::Max => top_sum(problem) - upper,
    }
}

/// The upper bound of the best sum that these bounds of the optimum of the problem solved show.
fn upper_for(goal: Goal, problem: &Problem, lower: u64, upper: u64) -> u64
    requires { lower ≤ top_of problem.now }
    ensures { result ≡ upper_for goal problem.now lower upper }
{
    match goal {
        Goal::Min => upper,
        Goal::Max => top_sum(problem) - lower,
    }
}

/// The certificate of a log, if there is one.
fn certificate_of_log(log: Option<Log>) -> Option<Certificate>
    ensures { result ≡ certificate_of_log log }
{
    match log {
        Some(log) => Some(Certificate::Log(log)),
        None => None,
    }
}

/// How a report ends: solved if all agents have ended, and spent otherwise.
fn ending_by(ended: bool) -> Ending
    ensures { result ≡ (if ended then solved_end else spent_end) }
{
    if ended { Ending::Solved } else { Ending::Spent }
}

/// The lesser of a sum and a bound, or the sum if there is no bound.
fn least_known(sum: u64, bound: Option<u64>) -> u64
    ensures { result ≡ least_known sum bound }
{
    match bound {
        Some(bound) => sum.min(bound),
        None => sum,
    }
}
