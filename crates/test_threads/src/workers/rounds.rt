//! One round of token agents in their cells.

ghost use Rattle.std.specs.Prelude.{◌≡◌, false, OnOk, IfOk};
ghost use Rattle.agent_cells.specs.State.{begun_in, IsCell};
ghost use Rattle.agent_workers.specs.Joined.{EachIs, EachBecomes, IsSameCell};
ghost use Rattle.agent_workers.specs.Run.{HasStarted};
ghost use Rattle.agent_links.specs.Ready.{IsNewCell};
ghost use Rattle.agent_links.specs.Kinds.{view_of};

use agent_cells::{Cell, VisitFault};
use agent_links::{Seat, make_each, seats_of};
use agent_workers::{CellsList, begin_all, round};
use dcop_base::{NoMemory, Problem, problem_is_whole};
use dcop_edge::OpenGate;
use delivery_core::Start;
use std::thread::Threads;

/// How many messages the token agents of the problem take in their first round, in one node with
/// one worker, after all have started.
pub(crate) fn one_round<R: Threads + AllocGlobal + Sync>(
    rt: &R,
    problem: &Problem,
) -> Result<u64, VisitFault> {
    let alloc = rt.alloc();
    problem_is_whole(problem);
    let make = |seat: Seat| -> Result<Cell, NoMemory>
        ensures { IfOk result (IsNewCell (λ b. meaning (b.vtable, b.value)) (view_of seat.agent) seat.me seat.tails.items seat.heads.items) }
    {
        let machine = Box::new(alloc, seat.agent)?;
        Cell::new(alloc, machine, seat.me, seat.tails, seat.heads)
    };
    let seats = seats_of(alloc, problem, &Start::Token)?;
    let mut cells = make_each(alloc, seats, &make)?;
    begin(&mut cells)?;
    round(rt, &mut cells, 1, 1, &OpenGate)
}

// Starts the agents of all cells.
fn begin(cells: &mut CellsList) -> Result<(), NoMemory>
    requires sound { EachIs (λ c. IsCell (λ b. meaning (b.vtable, b.value)) c) cells.old.items }
    requires fresh { EachIs (λ c. begun_in c ≡ false) cells.old.items }
    ensures same { EachBecomes (λ a b. IsSameCell a b) cells.old.items cells.new.items }
    ensures started { OnOk result (EachBecomes (λ a b. HasStarted (λ b. meaning (b.vtable, b.value)) a b) cells.old.items cells.new.items) }
{
    begin_all(cells.as_mut_slice())
}
