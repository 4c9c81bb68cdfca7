//! The problem that is solved.

ghost use Rattle.std.specs.Prelude.{◌≡◌, IfOk};
ghost use Rattle.minimised_problem.specs.Goal.{problem_solved};
ghost use Rattle.minimised_problem.specs.Solved.{problem_in};

use dcop_base::{NoMemory, Problem};
use dcop_optimum::turn;
use problem_text::{Goal, ProblemFile};
use std::alloc::Global;

/// The problem that is solved for a file: its own, or the turned one.
#[derive(Debug, Drop)]
pub enum ProblemSolved<'a> {
    /// For goal min, the file's problem itself.
    Own(&'a Problem),
    /// For goal max, the turned problem.
    Turned(Problem),
}

impl<'a> ProblemSolved<'a> {
    /// The problem that is solved for this file. For goal min nothing is copied.
    ///
    /// # Errors
    ///
    /// [`NoMemory`] if memory runs out, which never happens for goal min.
    pub fn of(alloc: Global, file: &'a ProblemFile) -> Result<ProblemSolved<'a>, NoMemory>
        ensures { IfOk result (λ solved. problem_in solved ≡ problem_solved file.now) }
    {
        match file.goal {
            Goal::Min => Ok(ProblemSolved::Own(&file.problem)),
            Goal::Max => Ok(ProblemSolved::Turned(turn(alloc, &file.problem)?)),
        }
    }

    /// The problem.
    pub fn problem(&self) -> &Problem
        ensures { result.now ≡ problem_in self.now }
    {
        match self {
            ProblemSolved::Own(problem) => problem,
            ProblemSolved::Turned(problem) => problem,
        }
    }
}
