//! The answers of `tree` and of each method whose agents are run.

ghost use Rattle.std.specs.Prelude.{◌<◌, ◌≤◌, IfOk};
ghost use Rattle.dcop_base.specs.Limits.{amount_limit, budget_limit};
ghost use Rattle.problem_text.specs.Steps.{declared_by};
ghost use Rattle.solve_report.specs.AnswerText.{HasText};
ghost use Rattle.solve_methods.specs.Adopt.{AnswersAdopt};
ghost use Rattle.solve_methods.specs.Auto.{AnswersAuto};
ghost use Rattle.solve_methods.specs.Dpop.{AnswersDpop};
ghost use Rattle.solve_methods.specs.Goal.{TellsRight};
ghost use Rattle.solve_methods.specs.Tree.{AnswersTree};
ghost use Rattle.solve_agents.specs.Wiring.{HasUntrustedWire};
ghost use Rattle.solve_answers.specs.Nodes.{IsAnswerIn, TellsLinks};

use crate::linking::fault_told;
use crate::task::FileTask;
use dcop_base::{NoMemory, problem_is_whole};
use dcop_edge::Gate;
use problem_text::ProblemFile;
use solve_agents::{Crew, choose_for, find_tree, reach_for, settle_for};
use solve_methods::{Asked, adopt_answer, auto_answer, dpop_answer, tree_answer};
use solve_report::Answer;
use std::alloc::{AllocGlobal, Global};
use std::net::Net;
use std::random::RandomSource;
use std::sync::Wait;
use std::thread::Threads;
use std::time::Clock;
use wire_pump::Dialer;

/// The answer of `tree` on a file.
pub(crate) fn by_search<R: Threads + Sync, G: Gate>(
    crew: &Crew<R, G>,
    alloc: Global,
    file: ProblemFile,
) -> Result<Answer, NoMemory>
    ensures belongs { IfOk result (AnswersTree (declared_by file)) }
    ensures right { IfOk result TellsRight }
    ensures told { IfOk result HasText }
{
    let found = find_tree(crew, alloc, &file.problem)?;
    tree_answer(alloc, file, found)
}

/// The answer of DPOP on a file. If it is to be certified, the report has the tables of all
/// variables, in preorder, as its certificate.
pub(crate) fn by_dpop<R, D, G>(
    crew: &Crew<R, G>,
    alloc: Global,
    dialer: &mut D,
    file: ProblemFile,
    certified: bool,
) -> Result<Answer, NoMemory>
where
    R: Threads + Wait + Clock + RandomSource + Net + AllocGlobal + Sync,
    D: Dialer,
    G: Gate,
    ensures belongs { IfOk result (IsAnswerIn (FileTask.Dpop certified) crew.now.nodes (declared_by file) (AnswersDpop (declared_by file) certified)) }
    ensures links { TellsLinks (1 < crew.now.nodes) (HasUntrustedWire D.W.told (D.is_honest dialer.old)) (D.faults dialer.old) (D.faults dialer.new) result }
    ensures right { IfOk result TellsRight }
    ensures told { IfOk result HasText }
{
    problem_is_whole(&file.problem);
    match choose_for(crew, alloc, dialer, &file, certified) {
        Ok(choice) => Ok(dpop_answer(file, choice)),
        Err(fault) => fault_told(alloc, file.names, fault),
    }
}

/// The answer of ADOPT on a file: what the agents reach on the problem solved, on its depth-first
/// tree. If it is to be certified, the report has the log of their run as its certificate.
pub(crate) fn by_adopt<R, D, G>(
    crew: &Crew<R, G>,
    alloc: Global,
    dialer: &mut D,
    file: ProblemFile,
    asked: Asked,
) -> Result<Answer, NoMemory>
where
    R: Threads + Wait + Clock + RandomSource + Net + AllocGlobal + Sync,
    D: Dialer,
    G: Gate,
    requires error { asked.error ≤ amount_limit }
    requires budget { asked.budget ≤ budget_limit }
    ensures belongs { IfOk result (IsAnswerIn (FileTask.Adopt asked.error asked.budget asked.certified) crew.now.nodes (declared_by file) (AnswersAdopt (declared_by file) asked.error asked.budget asked.certified)) }
    ensures links { TellsLinks (1 < crew.now.nodes) (HasUntrustedWire D.W.told (D.is_honest dialer.old)) (D.faults dialer.old) (D.faults dialer.new) result }
    ensures right { IfOk result TellsRight }
    ensures told { IfOk result HasText }
{
    problem_is_whole(&file.problem);
    match reach_for(crew, alloc, dialer, &file, asked) {
        Ok(reached) => Ok(adopt_answer(file, asked, reached)),
        Err(fault) => fault_told(alloc, file.names, fault),
    }
}

/// The answer of auto on a file: what the agents reach on the problem solved.
pub(crate) fn by_auto<R, D, G>(
    crew: &Crew<R, G>,
    alloc: Global,
    dialer: &mut D,
    file: ProblemFile,
    asked: Asked,
) -> Result<Answer, NoMemory>
where
    R: Threads + Wait + Clock + RandomSource + Net + AllocGlobal + Sync,
    D: Dialer,
    G: Gate,
    requires error { asked.error ≤ amount_limit }
    requires budget { asked.budget ≤ budget_limit }
    ensures belongs { IfOk result (IsAnswerIn (FileTask.Auto asked.error asked.budget asked.certified) crew.now.nodes (declared_by file) (AnswersAuto (declared_by file) asked.error asked.budget asked.certified)) }
    ensures links { TellsLinks (1 < crew.now.nodes) (HasUntrustedWire D.W.told (D.is_honest dialer.old)) (D.faults dialer.old) (D.faults dialer.new) result }
    ensures right { IfOk result TellsRight }
    ensures told { IfOk result HasText }
{
    problem_is_whole(&file.problem);
    match settle_for(crew, alloc, dialer, &file, asked) {
        Ok(settled) => Ok(auto_answer(file, asked, settled)),
        Err(fault) => fault_told(alloc, file.names, fault),
    }
}
