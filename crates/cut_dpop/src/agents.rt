//! Running the agents of one turn.

ghost use Rattle.std.specs.Prelude.{◌≡◌, IfOk};
ghost use Rattle.agent_links.specs.Ready.{IsNewCell};
ghost use Rattle.delivery_core.specs.Agents.{IsStartFor, agents_of};
ghost use Rattle.protocol_steps.specs.Outcomes.{HaveRun};
ghost use Rattle.agent_links.specs.Kinds.{view_of};
ghost use Rattle.cut_dpop.specs.Start.{turn_deliveries};

use crate::crew::Crew;
use agent_cells::Cell;
use agent_links::{Seat, make_each, outcome_of, seats_of, workers_share};
use agent_workers::run;
use dcop_base::{NoMemory, Problem, problem_is_whole};
use dcop_edge::Gate;
use delivery_core::Start;
use delivery_turns::play_out;
use protocol_steps::Outcome;
use std::alloc::Global;
use std::thread::Threads;
use worker_laws::cells_tell_outcomes;

/// Runs the agents of a problem from this start, in rounds, until all have ended or as many
/// messages are delivered as DPOP takes. Workers that share them run them in cells; otherwise they
/// are played on this thread, without cells and links.
pub(crate) fn run_agents<R: Threads + Sync, G: Gate>(
    crew: &Crew<R, G>,
    alloc: Global,
    problem: &Problem,
    start: &Start,
) -> Result<Outcome, NoMemory>
    requires start { IsStartFor problem.now start.now }
    ensures { IfOk result (HaveRun (turn_deliveries problem.now) (agents_of problem.now start.now)) }
{
    if workers_share(crew.rt, alloc, problem, start, crew.workers)? {
        return run_cells(crew, alloc, problem, start);
    }
    play_alone(crew.gate, alloc, problem, start)
}

/// The same, on this thread.
fn play_alone<G: Gate>(
    gate: &G,
    alloc: Global,
    problem: &Problem,
    start: &Start,
) -> Result<Outcome, NoMemory>
    requires start { IsStartFor problem.now start.now }
    ensures { IfOk result (HaveRun (turn_deliveries problem.now) (agents_of problem.now start.now)) }
{
    problem_is_whole(problem);
    let budget = 2 * (problem.sizes.as_slice().len() as u64 - 1);
    play_out(alloc, gate, problem, start, budget)
}

/// The same, by workers. Agents are boxed where they are run, since no call may hand boxes out.
fn run_cells<R: Threads + Sync, G: Gate>(
    crew: &Crew<R, G>,
    alloc: Global,
    problem: &Problem,
    start: &Start,
) -> Result<Outcome, NoMemory>
    requires start { IsStartFor problem.now start.now }
    ensures { IfOk result (HaveRun (turn_deliveries problem.now) (agents_of problem.now start.now)) }
{
    cells_tell_outcomes();
    problem_is_whole(problem);
    let make = |seat: Seat| -> Result<Cell, NoMemory>
        ensures { IfOk result (IsNewCell (λ b. meaning (b.vtable, b.value)) (view_of seat.agent) seat.me seat.tails.items seat.heads.items) }
    {
        let machine = Box::new(alloc, seat.agent)?;
        Cell::new(alloc, machine, seat.me, seat.tails, seat.heads)
    };
    let budget = 2 * (problem.sizes.as_slice().len() as u64 - 1);
    let seats = seats_of(alloc, problem, start)?;
    let mut cells = make_each(alloc, seats, &make)?;
    let end = run(crew.rt, &mut cells, crew.workers, budget, crew.gate)?;
    outcome_of(alloc, cells.as_slice(), end)
}
