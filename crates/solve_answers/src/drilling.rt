//! Answers of drills, which read nothing.

ghost use Rattle.std.specs.Prelude.{◌≡◌, ◌<◌, Some, None, IfOk, IfSome};
ghost use Rattle.solve_report.specs.AnswerText.{HasText};
ghost use Rattle.solve_methods.specs.Goal.{TellsRight};
ghost use Rattle.solve_words.specs.Ranges.{IsInRange};
ghost use Rattle.solve_agents.specs.Wiring.{HasUntrustedWire};
ghost use Rattle.solve_answers.specs.Nodes.{IsUnreadAnswerIn, TellsLinks};
ghost use Rattle.solve_answers.specs.Drilling.{drill_of, IsDrillInRange};
ghost use Rattle.solve_answers.specs.Served.{task_of};

use crate::answering::file_answer;
use crate::task::FileTask;
use answer_io::ReadInput;
use dcop_base::NoMemory;
use dcop_edge::Gate;
use instance_make::make_problem;
use solve_agents::Crew;
use solve_methods::drill_answer;
use solve_report::Answer;
use solve_words::Command;
use std::alloc::{AllocGlobal, Global};
use std::net::Net;
use std::random::RandomSource;
use std::sync::Wait;
use std::thread::Threads;
use std::time::Clock;
use wire_pump::Dialer;

/// A problem to make from a number, and how to solve it.
#[derive(Clone, Copy, Debug, PartialEq, Eq)]
pub struct Drill {
    /// The number that the problem is made from.
    pub seed: u64,
    /// How many variables the problem has.
    pub vars: u32,
    /// The domain size of each variable.
    pub size: u16,
    /// At most how many tables a variable has with earlier ones.
    pub degree: u32,
    /// The greatest cost that a cell may have.
    pub top: u64,
    /// How the problem is solved.
    pub task: FileTask,
}

impl Drill {
    /// The drill that a command asks for; `None` exactly if it asks for none.
    pub fn of(command: &Command) -> Option<Drill>
        requires { IsInRange command.now }
        ensures same { result ≡ drill_of command.now }
        ensures range { IfSome result IsDrillInRange }
    {
        let Command::Drill {
            method,
            error,
            budget,
            seed,
            vars,
            size,
            degree,
            top,
            cells,
            ..
        } = *command
        else {
            return None;
        };
        Some(Drill {
            seed,
            vars,
            size,
            degree,
            top,
            task: FileTask::by(method, error, budget, false, cells),
        })
    }
}

/// The answer to a command that reads nothing. This is a drill, since every other command reads an
/// input.
pub(crate) fn unread_answer<R, D, G>(
    crew: &Crew<R, G>,
    alloc: Global,
    dialer: &mut D,
    command: &Command,
) -> Result<Answer, NoMemory>
where
    R: Threads + Wait + Clock + RandomSource + Net + AllocGlobal + Sync,
    D: Dialer,
    G: Gate,
    requires range { IsInRange command.now }
    requires unread { task_of command.now ≡ None }
    ensures belongs { IfOk result (IsUnreadAnswerIn crew.now.nodes (drill_of command.now)) }
    ensures links { TellsLinks (1 < crew.now.nodes) (HasUntrustedWire D.W.told (D.is_honest dialer.old)) (D.faults dialer.old) (D.faults dialer.new) result }
    ensures right { IfOk result TellsRight }
    ensures told { IfOk result HasText }
{
    match Drill::of(command) {
        Some(drill) => made_answer(crew, alloc, dialer, drill),
        None => unreachable!(),
    }
}

/// The answer to a drill: the summary of what `solve` reports for the problem that is made, or its
/// refusal.
fn made_answer<R, D, G>(
    crew: &Crew<R, G>,
    alloc: Global,
    dialer: &mut D,
    drill: Drill,
) -> Result<Answer, NoMemory>
where
    R: Threads + Wait + Clock + RandomSource + Net + AllocGlobal + Sync,
    D: Dialer,
    G: Gate,
    requires { IsDrillInRange drill }
    ensures belongs { IfOk result (IsUnreadAnswerIn crew.now.nodes (Some drill)) }
    ensures links { TellsLinks (1 < crew.now.nodes) (HasUntrustedWire D.W.told (D.is_honest dialer.old)) (D.faults dialer.old) (D.faults dialer.new) result }
    ensures right { IfOk result TellsRight }
    ensures told { IfOk result HasText }
{
    let Drill {
        seed,
        vars,
        size,
        degree,
        top,
        task,
    } = drill;
    let file = make_problem(alloc, seed, vars, size, degree, top)?;
    let solved = file_answer(crew, alloc, dialer, task, ReadInput { file, bar: None })?;
    Ok(drill_answer(seed, solved))
}
