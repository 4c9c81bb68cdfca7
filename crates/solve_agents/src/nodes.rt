//! Agents in one node or several.

ghost use Rattle.std.specs.Prelude.{◌≡◌, ◌<◌, ◌≤◌, length, IfOk, OnOk};
ghost use Rattle.dcop_base.specs.Limits.{budget_limit};
ghost use Rattle.agent_links.specs.Ready.{IsNewCell};
ghost use Rattle.agent_links.specs.Kinds.{view_of};
ghost use Rattle.delivery_core.specs.Agents.{agents_of, IsStartFor};
ghost use Rattle.minimised_problem.specs.Found.{IsFound};
ghost use Rattle.solve_methods.specs.Kept.{HaveLogged};
ghost use Rattle.tcp_links.specs.Plans.{IsNewPlan, IsHonest};
ghost use Rattle.solve_agents.specs.Phases.{IsNoPhase, IsPhase, IsSearchPhase};
ghost use Rattle.solve_agents.specs.Wiring.{nodes_in, IsWiringFor, IsHonestWiring, HasNewWire, HasUntrustedWire, MayFail};

use crate::agents::{logged_of, run_logged};
use crate::crew::Crew;
use agent_cells::Cell;
use agent_links::{Seat, make_each};
use dcop_base::{NoMemory, Problem, problem_is_whole};
use dcop_edge::Gate;
use delivery_core::Start;
use minimised_problem::{Found, search_deliveries, tree_found};
use node_seats::seats_over;
use run_log::merged_stamps_are_right;
use solve_methods::Logged;
use std::alloc::{AllocGlobal, Global};
use std::net::Net;
use std::random::RandomSource;
use std::sync::Wait;
use std::thread::Threads;
use std::time::Clock;
use tcp_links::{NodeFault, NodePlan, run_nodes};
use wire_pump::{DialFault, Dialer, Wire};
use worker_laws::{cells_tell_outcomes, journals_merge};

/// How the agents of a problem are connected.
#[derive(Drop)]
pub(crate) enum Wiring<W: Wire> {
    /// By rings, in one node.
    Rings,
    /// By rings inside each node, and by the wires of a plan between nodes.
    Nodes(NodePlan<W>),
}

impl<W: Wire> Wiring<W> {
    /// The wiring of a problem's agents in the crew's number of nodes. If there is more than one
    /// node, each pair of nodes is dialled. The call may wait.
    ///
    /// # Errors
    ///
    /// [`NodeFault::Failed`] only if the dialer's count of faults rose.
    pub(crate) fn between<R, D, G>(
        crew: &Crew<R, G>,
        alloc: Global,
        dialer: &mut D,
        problem: &Problem,
    ) -> Result<Wiring<W>, NodeFault>
    where
        R: Threads + Wait + Clock + RandomSource + Net + AllocGlobal + Sync,
        D: Dialer<W = W>,
        G: Gate,
        ensures wiring { IfOk result (IsWiringFor (length problem.now.sizes)) }
        ensures nodes { IfOk result (λ wiring. nodes_in wiring ≡ crew.now.nodes) }
        ensures honest { D.is_honest dialer.old → IfOk result (IsHonestWiring W.told W.is_joined) }
        ensures given { OnOk result (1 < crew.now.nodes → HasNewWire W.told) }
        ensures links { MayFail problem.now IsNoPhase crew.now.nodes (HasUntrustedWire W.told (D.is_honest dialer.old)) (D.faults dialer.old) (D.faults dialer.new) result }
    {
        if crew.nodes == 1 {
            return Ok(Wiring::Rings);
        }
        let agents = problem.sizes.as_slice().len() as u32;
        match NodePlan::new(crew.rt, alloc, dialer, agents, crew.nodes) {
            Ok(plan) => Ok(Wiring::Nodes(plan)),
            Err(DialFault::Failed) => Err(NodeFault::Failed),
            Err(DialFault::NoMemory) => Err(NodeFault::NoMemory),
        }
    }
}

/// Runs the agents of a problem from this start, in the nodes of a wiring, in rounds, until all
/// have ended or `budget` messages are delivered. The log of the run is included if it is
/// requested.
///
/// # Errors
///
/// If the agents are in one node, only [`NodeFault::NoMemory`]; otherwise those of [`run_nodes`].
pub(crate) fn run_over<R, D, G>(
    crew: &Crew<R, G>,
    alloc: Global,
    dialer: &mut D,
    wiring: &mut Wiring<D::W>,
    problem: &Problem,
    start: &Start,
    budget: u64,
    certified: bool,
) -> Result<Logged, NodeFault>
where
    R: Threads + Wait + Clock + RandomSource + Net + AllocGlobal + Sync,
    D: Dialer,
    G: Gate,
    requires start { IsStartFor problem.now start.now }
    requires budget { budget ≤ budget_limit }
    requires wiring { IsWiringFor (length problem.now.sizes) wiring.old }
    ensures logged { IfOk result (HaveLogged budget (agents_of problem.now start.now) certified) }
    ensures wiring { OnOk result (IsWiringFor (length problem.now.sizes) wiring.new) }
    ensures nodes { OnOk result (nodes_in wiring.new ≡ nodes_in wiring.old) }
    ensures honest { IsHonestWiring D.W.told D.W.is_joined wiring.old → OnOk result (IsHonestWiring D.W.told D.W.is_joined wiring.new) }
    ensures links { MayFail problem.now (IsPhase start.now budget) (nodes_in wiring.old) (¬ IsHonestWiring D.W.told D.W.is_joined wiring.old) (D.faults dialer.old) (D.faults dialer.new) result }
{
    match wiring {
        Wiring::Rings => Ok(run_logged(crew, alloc, problem, start, budget, certified)?),
        Wiring::Nodes(plan) => run_in(crew, alloc, dialer, plan, problem, start, budget, certified),
    }
}

/// The same, in the nodes of a plan.
fn run_in<R, D, G>(
    crew: &Crew<R, G>,
    alloc: Global,
    dialer: &mut D,
    plan: &mut NodePlan<D::W>,
    problem: &Problem,
    start: &Start,
    budget: u64,
    certified: bool,
) -> Result<Logged, NodeFault>
where
    R: Threads + Wait + Clock + RandomSource + Net + AllocGlobal + Sync,
    D: Dialer,
    G: Gate,
    requires start { IsStartFor problem.now start.now }
    requires budget { budget ≤ budget_limit }
    requires plan { IsNewPlan (length problem.now.sizes) plan.old.nodes plan.old }
    requires many { 1 < plan.old.nodes }
    ensures logged { IfOk result (HaveLogged budget (agents_of problem.now start.now) certified) }
    ensures plan { OnOk result (IsNewPlan (length problem.now.sizes) plan.old.nodes plan.new) }
    ensures honest { IsHonest D.W.told D.W.is_joined plan.old → OnOk result (IsHonest D.W.told D.W.is_joined plan.new) }
    ensures links { MayFail problem.now (IsPhase start.now budget) plan.old.nodes (¬ IsHonest D.W.told D.W.is_joined plan.old) (D.faults dialer.old) (D.faults dialer.new) result }
{
    cells_tell_outcomes();
    journals_merge();
    merged_stamps_are_right();
    problem_is_whole(problem);
    let make = |seat: Seat| -> Result<Cell, NoMemory>
        ensures { IfOk result (IsNewCell (λ b. meaning (b.vtable, b.value)) (view_of seat.agent) seat.me seat.tails.items seat.heads.items) }
    {
        let machine = Box::new(alloc, seat.agent)?;
        Cell::new(alloc, machine, seat.me, seat.tails, seat.heads)
    };
    let seats = seats_over(alloc, problem, start, plan)?;
    let mut cells = make_each(alloc, seats, &make)?;
    let end = run_nodes(
        crew.rt,
        alloc,
        &mut cells,
        plan,
        dialer,
        crew.workers,
        budget,
        crew.gate,
    )?;
    Ok(logged_of(alloc, cells.as_slice(), end, certified)?)
}

/// The depth-first tree of a problem, which its token agents find in the nodes of a wiring.
pub(crate) fn find_over<R, D, G>(
    crew: &Crew<R, G>,
    alloc: Global,
    dialer: &mut D,
    wiring: &mut Wiring<D::W>,
    problem: &Problem,
) -> Result<Found, NodeFault>
where
    R: Threads + Wait + Clock + RandomSource + Net + AllocGlobal + Sync,
    D: Dialer,
    G: Gate,
    requires wiring { IsWiringFor (length problem.now.sizes) wiring.old }
    ensures found { IfOk result (IsFound problem.now) }
    ensures wiring { OnOk result (IsWiringFor (length problem.now.sizes) wiring.new) }
    ensures nodes { OnOk result (nodes_in wiring.new ≡ nodes_in wiring.old) }
    ensures honest { IsHonestWiring D.W.told D.W.is_joined wiring.old → OnOk result (IsHonestWiring D.W.told D.W.is_joined wiring.new) }
    ensures links { MayFail problem.now (IsSearchPhase problem.now) (nodes_in wiring.old) (¬ IsHonestWiring D.W.told D.W.is_joined wiring.old) (D.faults dialer.old) (D.faults dialer.new) result }
{
    let budget = search_deliveries(problem);
    let ran = run_over(
        crew,
        alloc,
        dialer,
        wiring,
        problem,
        &Start::Token,
        budget,
        false,
    )?;
    Ok(tree_found(alloc, problem, &ran.outcome)?)
}
