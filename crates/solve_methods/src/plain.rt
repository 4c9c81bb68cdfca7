//! The answer of plain search.

ghost use Rattle.std.specs.Prelude.{◌≡◌, IfOk};
ghost use Rattle.dcop_base.specs.Problem.{IsAssignment};
ghost use Rattle.certificate_text.specs.Named.{CanTell};
ghost use Rattle.solve_methods.specs.Plain.{IsPlainReport, GivesFirst, GivesBest, IsPlainAnswer};

use certificate_text::{Ending, Method, Report};
use dcop_base::{NoMemory, Problem, ValList, cost_of, problem_is_whole};
use dcop_optimum::{PlainFault, least_plain};
use minimised_problem::ProblemSolved;
use problem_text::ProblemFile;
use solve_report::Answer;
use std::alloc::Global;

/// The answer of plain search on a file: a report, or that the file has too many assignments to
/// try.
///
/// # Errors
///
/// [`NoMemory`] if memory runs out.
pub fn plain_answer(alloc: Global, file: ProblemFile) -> Result<Answer, NoMemory>
    ensures { IfOk result (λ answer. IsPlainAnswer file answer) }
{
    match best_values(alloc, &file) {
        Ok(values) => Ok(Answer::Report {
            report: plain_report(&file, values),
            file,
        }),
        Err(PlainFault::TooMany { assignments }) => Ok(Answer::Many { assignments }),
        Err(PlainFault::NoMemory) => Err(NoMemory),
    }
}

/// The values with the best sum: the first optimum of the problem solved, which is the file's
/// problem, or for goal max the turned one.
fn best_values(alloc: Global, file: &ProblemFile) -> Result<ValList, PlainFault>
    ensures { GivesBest file.now result }
{
    problem_is_whole(&file.problem);
    let solved = ProblemSolved::of(alloc, file)?;
    first_values(alloc, solved.problem())
}

/// The first optimal values of a problem.
fn first_values(alloc: Global, problem: &Problem) -> Result<ValList, PlainFault>
    ensures { GivesFirst problem.now result }
{
    match least_plain(alloc, problem) {
        Ok(best) => Ok(best.values),
        Err(fault) => Err(fault),
    }
}

/// The report of these values.
fn plain_report(file: &ProblemFile, values: ValList) -> Report
    requires { IsAssignment file.now.problem values }
    ensures form { IsPlainReport file.now result }
    ensures values { result.values ≡ values }
    ensures told { CanTell result file.now }
{
    let cost = cost_of(&file.problem, values.as_slice());
    Report {
        status: Ending::Solved,
        method: Method::Plain,
        goal: file.goal,
        error: 0,
        deliveries: 0,
        cost,
        lower: cost,
        upper: cost,
        values,
        certificate: None,
    }
}
