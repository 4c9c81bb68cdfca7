//! A run of cells.

ghost use Rattle.std.specs.Prelude.{◌≡◌, ◌≤◌, ◌<◌, false, true, IfOk, OnOk, IfErr, OnErr, None, length};
ghost use Rattle.std.specs.List.{list_all};
ghost use Rattle.dcop_base.specs.Limits.{budget_limit, variable_limit};
ghost use Rattle.protocol_steps.specs.View.{ended_of};
ghost use Rattle.worker_laws.specs.CellRuns.{MakesARun};
ghost use Rattle.worker_laws.specs.CellRounds.{total};
ghost use Rattle.agent_cells.specs.State.{state_of, begun_in, fault_in, IsCell};
ghost use Rattle.agent_workers.specs.Joined.{states_of, EachIs, EachBecomes, HasBegun, IsSameCell, AreCellsJoined};
ghost use Rattle.agent_workers.specs.Turns.{SomeFailed};
ghost use Rattle.agent_workers.specs.Broken.{HasFailedStart, HaveStartedPartly, HaveBrokenOff, HaveRunPartly};
ghost use Rattle.agent_workers.specs.Shared.{ArePlayedShared, HaveRunShared};
ghost use Rattle.agent_workers.specs.Run.{views_of, HasStarted, AreDulyPlayed, ArePlayedOut, AtStill, AreIdle, RestsAtStill};

use crate::rounds::{CellsList, play_round};
use crate::settle::settle_all;
use agent_cells::{Cell, VisitFault};
use dcop_base::NoMemory;
use dcop_edge::Gate;
use protocol_steps::RunEnd;
use std::thread::{Threads, available_parallelism};

/// Starts the agents of all cells, in order, and plays the cells in rounds in one node until the
/// run has ended under this budget of deliveries. At most `workers` workers play a round. They
/// share a round if enough work waits or none gets two cells; else one plays it. It allocates
/// memory. After [`NoMemory`] each cell is still a sound cell of its agent, with its links. The
/// clause `left` says how far the starts and the rounds came: each cell that has not failed is as
/// they leave it.
///
/// The budget is compared after the start and after each round, and not within a round. The run
/// ends, with its number of deliveries, when every agent has ended; or one has not and the
/// deliveries are at least the budget; or one has not and a round took nothing. So each round
/// begins with an agent that has not ended, and each but the last takes something. If the answer is
/// [`RunEnd::Still`], the last round takes nothing. After the last round every link is settled once
/// more. The clause `parts` says in which parts and turns each round was played.
pub fn run<R: Threads + Sync, G: Gate>(
    rt: &R,
    cells: &mut CellsList,
    workers: u32,
    budget: u64,
    gate: &G,
) -> Result<RunEnd, NoMemory>
    requires workers { 0 < workers }
    requires budget { budget ≤ budget_limit }
    requires joined { AreCellsJoined (λ b. meaning (b.vtable, b.value)) 1 cells.old.items }
    requires sound { EachIs (λ c. IsCell (λ b. meaning (b.vtable, b.value)) c) cells.old.items }
    requires fresh { EachIs (λ c. begun_in c ≡ false) cells.old.items }
    ensures same { EachBecomes (λ a b. IsSameCell a b) cells.old.items cells.new.items }
    ensures sound { EachIs (λ c. IsCell (λ b. meaning (b.vtable, b.value)) c) cells.new.items }
    ensures run { IfOk result (λ end. MakesARun budget (views_of (λ b. meaning (b.vtable, b.value)) cells.old.items)
        (states_of (λ b. meaning (b.vtable, b.value)) cells.new.items) end) }
    ensures rounds { OnOk result (AreDulyPlayed budget (views_of (λ b. meaning (b.vtable, b.value)) cells.old.items) (states_of (λ b. meaning (b.vtable, b.value)) cells.new.items)) }
    ensures still { IfOk result (λ end. RestsAtStill budget (views_of (λ b. meaning (b.vtable, b.value)) cells.old.items)
        (states_of (λ b. meaning (b.vtable, b.value)) cells.new.items) end) }
    ensures parts { OnOk result (HaveRunShared (λ b. meaning (b.vtable, b.value)) workers budget cells.old.items cells.new.items) }
    ensures left { OnErr result (HaveRunPartly (λ b. meaning (b.vtable, b.value)) workers budget
        cells.old.items cells.new.items) }
{
    run_all(rt, cells.as_mut_slice(), workers, budget, gate)
}

/// [`run`] on a slice.
fn run_all<R: Threads + Sync, G: Gate>(
    rt: &R,
    cells: &mut [Cell],
    workers: u32,
    budget: u64,
    gate: &G,
) -> Result<RunEnd, NoMemory>
    requires workers { 0 < workers }
    requires budget { budget ≤ budget_limit }
    requires joined { AreCellsJoined (λ b. meaning (b.vtable, b.value)) 1 cells.old }
    requires sound { EachIs (λ c. IsCell (λ b. meaning (b.vtable, b.value)) c) cells.old }
    requires fresh { EachIs (λ c. begun_in c ≡ false) cells.old }
    ensures same { EachBecomes (λ a b. IsSameCell a b) cells.old cells.new }
    ensures sound { EachIs (λ c. IsCell (λ b. meaning (b.vtable, b.value)) c) cells.new }
    ensures run { IfOk result (λ end. MakesARun budget (views_of (λ b. meaning (b.vtable, b.value)) cells.old)
        (states_of (λ b. meaning (b.vtable, b.value)) cells.new) end) }
    ensures rounds { OnOk result (AreDulyPlayed budget (views_of (λ b. meaning (b.vtable, b.value)) cells.old) (states_of (λ b. meaning (b.vtable, b.value)) cells.new)) }
    ensures still { IfOk result (λ end. RestsAtStill budget (views_of (λ b. meaning (b.vtable, b.value)) cells.old)
        (states_of (λ b. meaning (b.vtable, b.value)) cells.new) end) }
    ensures parts { OnOk result (HaveRunShared (λ b. meaning (b.vtable, b.value)) workers budget cells.old cells.new) }
    ensures left { OnErr result (HaveRunPartly (λ b. meaning (b.vtable, b.value)) workers budget
        cells.old cells.new) }
{
    begin_all(cells)?;
    match play_out(rt, cells, workers, budget, gate) {
        Ok(end) => {
            settle_all(cells, 1, 1);
            Ok(end)
        }
        Err(VisitFault::NoMemory) => Err(NoMemory),
        Err(VisitFault::StampEnd) => {
            // Once every link is settled, the cells show that no stamp is so great.
            settle_all(cells, 1, 1);
            unreachable!()
        }
    }
}

/// Plays rounds until the run has ended.
fn play_out<R: Threads + Sync, G: Gate>(
    rt: &R,
    cells: &mut [Cell],
    workers: u32,
    budget: u64,
    gate: &G,
) -> Result<RunEnd, VisitFault>
    requires workers { 0 < workers }
    requires budget { budget ≤ budget_limit }
    requires joined { AreCellsJoined (λ b. meaning (b.vtable, b.value)) 1 cells.old }
    requires begun { EachIs (λ c. HasBegun (λ b. meaning (b.vtable, b.value)) c) cells.old }
    requires fine { EachIs (λ c. fault_in c ≡ None) cells.old }
    requires none { total (states_of (λ b. meaning (b.vtable, b.value)) cells.old) ≡ 0 }
    ensures joined { AreCellsJoined (λ b. meaning (b.vtable, b.value)) 1 cells.new }
    ensures begun { EachIs (λ c. HasBegun (λ b. meaning (b.vtable, b.value)) c) cells.new }
    ensures same { EachBecomes (λ a b. IsSameCell a b) cells.old cells.new }
    ensures played { IfOk result (λ end. ArePlayedOut budget (states_of (λ b. meaning (b.vtable, b.value)) cells.old)
        (states_of (λ b. meaning (b.vtable, b.value)) cells.new) end) }
    ensures still { IfOk result (λ end. AtStill end (AreIdle budget (states_of (λ b. meaning (b.vtable, b.value)) cells.old)
        (states_of (λ b. meaning (b.vtable, b.value)) cells.new))) }
    ensures parts { OnOk result (ArePlayedShared (λ b. meaning (b.vtable, b.value)) workers budget cells.old cells.new) }
    ensures err { IfErr result (λ f. SomeFailed f cells.new) }
    ensures left { IfErr result (λ f. HaveBrokenOff (λ b. meaning (b.vtable, b.value)) f workers budget
        (states_of (λ b. meaning (b.vtable, b.value)) cells.old) cells.new) }
{
    let mut deliveries = 0;
    if all_ended(cells) {
        return Ok(RunEnd::AllEnded { deliveries });
    }
    let most = useful_workers(rt, workers);
    for _ in 0..budget {
        let taken = play_round(rt, cells, 1, most, gate)?;
        deliveries += taken;
        if all_ended(cells) {
            return Ok(RunEnd::AllEnded { deliveries });
        }
        if deliveries >= budget {
            return Ok(RunEnd::Spent { deliveries });
        }
        if taken == 0 {
            return Ok(RunEnd::Still { deliveries });
        }
    }
    Ok(RunEnd::Spent { deliveries })
}

/// How many workers may share the rounds of a run if `workers` are asked for: at least one, and at
/// most `workers`. No clause says more. It is the number of processors, or two on one processor, if
/// that is less than `workers`.
pub fn useful_workers<R: Threads>(rt: &R, workers: u32) -> u32
    requires { 0 < workers }
    ensures some { 0 < result }
    ensures most { result ≤ workers }
{
    let Ok(processors) = available_parallelism(rt) else {
        return workers;
    };
    let count = u32::try_from(processors.get()).unwrap_or(u32::MAX);
    workers.min(count.max(2))
}

/// Whether every agent has ended.
pub fn all_ended(cells: &[Cell]) -> bool
    ensures { result ≡ list_all (λ c. ended_of (state_of (λ b. meaning (b.vtable, b.value)) c).view) cells.now }
{
    let has_ended = |cell: &Cell| -> bool
        ensures { result ≡ ended_of (state_of (λ b. meaning (b.vtable, b.value)) cell.now).view }
    { cell.ended() };
    cells.iter().all(has_ended)
}

/// Starts the agents of all cells, in order. It allocates memory. After [`NoMemory`] each cell is
/// still sound: the first agents have started, the start of the next one has failed, and no other
/// cell has changed.
pub fn begin_all(cells: &mut [Cell]) -> Result<(), NoMemory>
    requires sound { EachIs (λ c. IsCell (λ b. meaning (b.vtable, b.value)) c) cells.old }
    requires fresh { EachIs (λ c. begun_in c ≡ false) cells.old }
    ensures same { EachBecomes (λ a b. IsSameCell a b) cells.old cells.new }
    ensures sound { EachIs (λ c. IsCell (λ b. meaning (b.vtable, b.value)) c) cells.new }
    ensures started { OnOk result (EachBecomes (λ a b. HasStarted (λ b. meaning (b.vtable, b.value)) a b) cells.old cells.new) }
    ensures left { OnErr result (HaveStartedPartly (λ b. meaning (b.vtable, b.value)) cells.old cells.new) }
{
    for cell in cells.iter_mut() {
        begin_once(cell)?;
    }
    Ok(())
}

/// Starts the agent of a cell.
fn begin_once(cell: &mut Cell) -> Result<(), NoMemory>
    requires sound { IsCell (λ b. meaning (b.vtable, b.value)) cell.old }
    requires fresh { begun_in cell.old ≡ false }
    ensures same { IsSameCell cell.old cell.new }
    ensures sound { IsCell (λ b. meaning (b.vtable, b.value)) cell.new }
    ensures started { OnOk result (HasStarted (λ b. meaning (b.vtable, b.value)) cell.old cell.new) }
    ensures failed { OnErr result (HasFailedStart (λ b. meaning (b.vtable, b.value)) cell.old cell.new) }
{
    cell.begin()
}
