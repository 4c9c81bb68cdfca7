//! Running agents in one node, and the tree that they find.

ghost use Rattle.std.specs.Prelude.{◌≡◌, ◌<◌, ◌≤◌, ℕ, length, is_some, IfOk, IfSome};
ghost use Rattle.dcop_base.specs.Limits.{budget_limit, variable_limit};
ghost use Rattle.protocol_steps.specs.JournalStamps.{journal_at};
ghost use Rattle.worker_laws.specs.CellRounds.{total};
ghost use Rattle.worker_laws.specs.CellRuns.{journals_of, IsCellOutcome};
ghost use Rattle.worker_laws.specs.Merges.{AscendsAbove, IsMerge};
ghost use Rattle.agent_workers.specs.Joined.{states_of};
ghost use Rattle.agent_links.specs.Ready.{IsNewCell, deliveries_in};
ghost use Rattle.run_log.specs.Logs.{entries_of};
ghost use Rattle.delivery_core.specs.Agents.{IsStartFor, agents_of};
ghost use Rattle.minimised_problem.specs.Goal.{problem_solved};
ghost use Rattle.pseudotree.specs.DepthFirst.{dfs};
ghost use Rattle.pseudotree.specs.Pseudotree.{IsPseudotreeOf};
ghost use Rattle.minimised_problem.specs.Found.{IsFound};
ghost use Rattle.solve_methods.specs.Kept.{HaveLogged};
ghost use Rattle.protocol_steps.specs.Outcomes.{HaveRun};
ghost use Rattle.agent_links.specs.Kinds.{view_of};

use crate::crew::Crew;
use crate::logging::log_if;
use agent_cells::Cell;
use agent_links::{Seat, make_each, outcome_of, seats_of, workers_share};
use agent_workers::run;
use dcop_base::{NoMemory, Problem, problem_is_whole};
use dcop_edge::Gate;
use delivery_core::Start;
use delivery_turns::play_out_logged;
use minimised_problem::{Found, ProblemSolved, search_deliveries, tree_found};
use problem_text::ProblemFile;
use protocol_steps::{Outcome, RunEnd};
use pseudotree::Tree;
use run_log::merged_stamps_are_right;
use solve_methods::Logged;
use std::alloc::Global;
use std::thread::Threads;
use worker_laws::{cells_tell_outcomes, journals_merge};

/// Runs the agents of a problem from this start, in rounds, until all have ended or `budget`
/// messages are delivered.
fn run_agents<R: Threads + Sync, G: Gate>(
    crew: &Crew<R, G>,
    alloc: Global,
    problem: &Problem,
    start: &Start,
    budget: u64,
) -> Result<Outcome, NoMemory>
    requires start { IsStartFor problem.now start.now }
    requires budget { budget ≤ budget_limit }
    ensures { IfOk result (HaveRun budget (agents_of problem.now start.now)) }
{
    let ran = run_logged(crew, alloc, problem, start, budget, false)?;
    Ok(ran.outcome)
}

/// The same, with the log of the run if it is requested. If workers do not share the agents, they
/// are played on this thread, without cells and links. Such a run is the same with a log and
/// without one, by the law `runs_go_one_way` of `delivery_turns`; no clause of this call says so.
pub(crate) fn run_logged<R: Threads + Sync, G: Gate>(
    crew: &Crew<R, G>,
    alloc: Global,
    problem: &Problem,
    start: &Start,
    budget: u64,
    certified: bool,
) -> Result<Logged, NoMemory>
    requires start { IsStartFor problem.now start.now }
    requires budget { budget ≤ budget_limit }
    ensures { IfOk result (HaveLogged budget (agents_of problem.now start.now) certified) }
{
    if workers_share(crew.rt, alloc, problem, start, crew.workers)? {
        return run_cells(crew, alloc, problem, start, budget, certified);
    }
    play_alone(crew.gate, alloc, problem, start, budget, certified)
}

/// The outcome of agents that one thread plays, with the log of the run if it is requested.
fn play_alone<G: Gate>(
    gate: &G,
    alloc: Global,
    problem: &Problem,
    start: &Start,
    budget: u64,
    certified: bool,
) -> Result<Logged, NoMemory>
    requires start { IsStartFor problem.now start.now }
    requires budget { budget ≤ budget_limit }
    ensures { IfOk result (HaveLogged budget (agents_of problem.now start.now) certified) }
{
    let played = play_out_logged(alloc, gate, problem, start, budget, certified)?;
    Ok(Logged {
        outcome: played.outcome,
        log: played.log,
    })
}

/// The outcome of agents that workers run in cells, with the log of the run if it is requested.
/// Agents are boxed where they are run, since no call may hand boxes out.
fn run_cells<R: Threads + Sync, G: Gate>(
    crew: &Crew<R, G>,
    alloc: Global,
    problem: &Problem,
    start: &Start,
    budget: u64,
    certified: bool,
) -> Result<Logged, NoMemory>
    requires start { IsStartFor problem.now start.now }
    requires budget { budget ≤ budget_limit }
    ensures { IfOk result (HaveLogged budget (agents_of problem.now start.now) certified) }
{
    cells_tell_outcomes();
    journals_merge();
    merged_stamps_are_right();
    problem_is_whole(problem);
    let make = |seat: Seat| -> Result<Cell, NoMemory>
        ensures { IfOk result (IsNewCell (λ b. meaning (b.vtable, b.value)) (view_of seat.agent) seat.me seat.tails.items seat.heads.items) }
    {
        let machine = Box::new(alloc, seat.agent)?;
        Cell::new(alloc, machine, seat.me, seat.tails, seat.heads)
    };
    let seats = seats_of(alloc, problem, start)?;
    let mut cells = make_each(alloc, seats, &make)?;
    let end = run(crew.rt, &mut cells, crew.workers, budget, crew.gate)?;
    logged_of(alloc, cells.as_slice(), end, certified)
}

/// The outcome of the agents of cells that have run to this end, with the log of the run if it is
/// requested.
pub(crate) fn logged_of(
    alloc: Global,
    cells: &[Cell],
    end: RunEnd,
    certified: bool,
) -> Result<Logged, NoMemory>
    requires some { 0 < length cells.now }
    requires few { length cells.now ≤ variable_limit }
    requires told { deliveries_in end ≡ total (states_of (λ b. meaning (b.vtable, b.value)) cells.now) }
    requires ascend { (i : ℕ) → AscendsAbove 0 (journal_at (journals_of (states_of (λ b. meaning (b.vtable, b.value)) cells.now)) i) }
    ensures outcome { IfOk result (λ ran. IsCellOutcome (states_of (λ b. meaning (b.vtable, b.value)) cells.now) ran.outcome) }
    ensures asked { IfOk result (λ ran. is_some ran.log ≡ certified) }
    ensures merged { IfOk result (λ ran. IfSome ran.log (λ events. IsMerge (journals_of (states_of (λ b. meaning (b.vtable, b.value)) cells.now)) (entries_of events))) }
{
    let outcome = outcome_of(alloc, cells, end)?;
    let log = log_if(alloc, certified, cells)?;
    Ok(Logged { outcome, log })
}

/// The depth-first tree of a problem, which its token agents find in one node.
///
/// # Errors
///
/// [`NoMemory`] if memory runs out.
pub fn find_tree<R: Threads + Sync, G: Gate>(
    crew: &Crew<R, G>,
    alloc: Global,
    problem: &Problem,
) -> Result<Found, NoMemory>
    ensures { IfOk result (IsFound problem.now) }
{
    let budget = search_deliveries(problem);
    let outcome = run_agents(crew, alloc, problem, &Start::Token, budget)?;
    tree_found(alloc, problem, &outcome)
}

/// The depth-first tree of the problem solved for a file, which its token agents find in one node.
///
/// # Errors
///
/// [`NoMemory`] if memory runs out.
pub fn tree_for<R: Threads + Sync, G: Gate>(
    crew: &Crew<R, G>,
    alloc: Global,
    file: &ProblemFile,
) -> Result<Tree, NoMemory>
    ensures tree { IfOk result (IsPseudotreeOf (problem_solved file.now)) }
    ensures paths { IfOk result (λ tree. tree.paths ≡ dfs (problem_solved file.now)) }
{
    let solved = ProblemSolved::of(alloc, file)?;
    let found = find_tree(crew, alloc, solved.problem())?;
    Ok(found.tree)
}
