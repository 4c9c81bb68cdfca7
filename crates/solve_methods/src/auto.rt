//! The answer of the method auto.

ghost use Rattle.problem_text.specs.Steps.{declared_by};
ghost use Rattle.minimised_problem.specs.Goal.{problem_solved};
ghost use Rattle.solve_report.specs.AnswerText.{HasText};
ghost use Rattle.solve_methods.specs.Auto.{AnswersAuto, GivesSettled};
ghost use Rattle.solve_methods.specs.Goal.{TellsRight};

use crate::adopt::{Asked, Reached, adopt_report};
use crate::dpop::{Chosen, dpop_report};
use dcop_base::problem_is_whole;
use problem_text::ProblemFile;
use solve_report::Answer;

/// The result of the agents of a problem: by DPOP if its tables fit, and by ADOPT otherwise.
#[derive(Debug, Drop)]
pub enum Settled {
    /// The values that DPOP agents chose.
    ByDpop(Chosen),
    /// What ADOPT agents reached, if the tables of DPOP would be too wide.
    ByAdopt(Reached),
}

/// The answer of auto, which is DPOP if its tables fit and ADOPT otherwise, on a file: the report
/// of what the agents reached on the problem solved. Its error is 0 if they chose by DPOP, and the
/// requested error otherwise.
pub fn auto_answer(file: ProblemFile, asked: Asked, settled: Settled) -> Answer
    requires { GivesSettled (problem_solved file) asked.error asked.budget asked.certified settled }
    ensures belongs { AnswersAuto (declared_by file) asked.error asked.budget asked.certified result }
    ensures right { TellsRight result }
    ensures told { HasText result }
{
    problem_is_whole(&file.problem);
    match settled {
        Settled::ByDpop(chosen) => Answer::Report {
            report: dpop_report(&file, chosen),
            file,
        },
        Settled::ByAdopt(reached) => Answer::Report {
            report: adopt_report(&file, asked, reached),
            file,
        },
    }
}
