//! Playing cells over a plan of nodes.

ghost use Rattle.std.specs.Prelude.{◌≡◌, ◌<◌, ◌≤◌, length, IfOk, OnOk, IfErr, IfSome, Some as some, None as none};
ghost use Rattle.dcop_base.specs.Limits.{budget_limit};
ghost use Rattle.worker_laws.specs.CellRounds.{total};
ghost use Rattle.worker_laws.specs.OneNode.{home};
ghost use Rattle.worker_laws.specs.Wires.{HaveHeld};
ghost use Rattle.agent_cells.specs.State.{fault_in};
ghost use Rattle.agent_workers.specs.Joined.{states_of, EachIs, EachBecomes, HasBegun, IsSameCell, AreCellsJoined};
ghost use Rattle.node_exchange.specs.Honest.{HaveReceivedAll};
ghost use Rattle.node_exchange.specs.Turned.{AreTurned};
ghost use Rattle.tcp_links.specs.Left.{KeepsPlan, pairs_lost_by, AreNotedAfter};
ghost use Rattle.tcp_links.specs.Carried.{HaveCarriedTaken};
ghost use Rattle.tcp_links.specs.Plans.{IsHonest};
ghost use Rattle.tcp_links.specs.Faults.{HasNodeCause, IsOtherFault};
ghost use Rattle.tcp_links.specs.Over.{IsPlanOver, IsRoundOver, IsRoundFault, ArePlayedTo};
ghost use Rattle.tcp_links.specs.Ends.{IsFaultOver};
ghost use Rattle.tcp_links.specs.Shared.{IfEnded, IsSharedOver, ArePlayedSharedOver};

use crate::exchange::exchange;
use crate::fault::NodeFault;
use crate::plan::NodePlan;
use agent_cells::{Cell, VisitFault};
use agent_workers::{all_ended, play_round, useful_workers};
use dcop_edge::Gate;
use protocol_steps::RunEnd;
use std::alloc::{AllocGlobal, Global};
use std::net::Net;
use std::random::RandomSource;
use std::sync::Wait;
use std::thread::Threads;
use std::time::Clock;
use wire_pump::Dialer;

/// How playing ended.
#[derive(Clone, Copy, Debug, PartialEq, Eq)]
pub(crate) struct Played {
    /// The number of rounds, including one that was broken off.
    pub(crate) rounds: u64,
    /// How the run ended; `None` if a round was broken off because stamps ran out.
    pub(crate) end: Option<RunEnd>,
}

/// Plays rounds, with an exchange before each, until the run has ended or a round is broken off.
pub(crate) fn play_over<R, D, G>(
    rt: &R,
    alloc: Global,
    cells: &mut [Cell],
    plan: &mut NodePlan<D::W>,
    dialer: &mut D,
    workers: u32,
    budget: u64,
    gate: &G,
) -> Result<Played, NodeFault>
where
    R: Threads + Wait + Clock + RandomSource + Net + AllocGlobal + Sync,
    D: Dialer,
    G: Gate,
    requires workers { 0 < workers }
    requires budget { budget ≤ budget_limit }
    requires over { IsPlanOver (λ b. meaning (b.vtable, b.value)) plan.old plan.old cells.old }
    requires joined { AreCellsJoined (λ b. meaning (b.vtable, b.value)) plan.old.nodes cells.old }
    requires begun { EachIs (λ c. HasBegun (λ b. meaning (b.vtable, b.value)) c) cells.old }
    requires fine { EachIs (λ c. fault_in c ≡ none) cells.old }
    requires none { total (states_of (λ b. meaning (b.vtable, b.value)) cells.old) ≡ 0 }
    ensures size { length cells.new ≡ length cells.old }
    ensures joined { AreCellsJoined (λ b. meaning (b.vtable, b.value)) plan.old.nodes cells.new }
    ensures begun { EachIs (λ c. HasBegun (λ b. meaning (b.vtable, b.value)) c) cells.new }
    ensures same { EachBecomes (λ a b. IsSameCell a b) cells.old cells.new }
    ensures keeps { KeepsPlan plan.old plan.new }
    ensures noted { IfErr result (λ e. AreNotedAfter e plan.new.kept.items plan.new.ends.items) }
    ensures wires { AreTurned D.W.told D.W.is_joined (pairs_lost_by result)
        plan.old.wires.items plan.new.wires.items }
    ensures letters { HaveCarriedTaken D.W.told D.W.is_joined plan.old plan.new result }
    ensures over { OnOk result (IsPlanOver (λ b. meaning (b.vtable, b.value)) plan.old plan.new cells.new) }
    ensures played { IfOk result (λ play. ArePlayedTo (λ b. meaning (b.vtable, b.value)) (home plan.old.nodes plan.old.agents) budget plan.old.kept.items
        (states_of (λ b. meaning (b.vtable, b.value)) cells.old) plan.new.kept.items cells.new play.rounds play.end) }
    ensures parts { IfOk result (λ play. IfEnded play.end (ArePlayedSharedOver (λ b. meaning (b.vtable, b.value)) workers plan.old.nodes cells.old cells.new)) }
    ensures cause { HasNodeCause (D.faults dialer.old) (D.faults dialer.new) result }
    ensures dialer { D.is_honest dialer.old → D.is_honest dialer.new }
    ensures left { IfErr result (IsFaultOver (λ b. meaning (b.vtable, b.value)) plan.old.nodes (home plan.old.nodes plan.old.agents)
        workers budget plan.old.kept.items (states_of (λ b. meaning (b.vtable, b.value)) cells.old) plan.new.kept.items plan.new.ends.items cells.new) }
    ensures honest { IsHonest D.W.told D.W.is_joined plan.old → HaveHeld plan.old.kept.items
        → OnOk result (IsHonest D.W.told D.W.is_joined plan.new × HaveHeld plan.new.kept.items) × IfErr result IsOtherFault }
    ensures carried { HaveReceivedAll D.W.told plan.new.wires.items → HaveHeld plan.old.kept.items
        → OnOk result (HaveHeld plan.new.kept.items) × IfErr result IsOtherFault }
{
    let mut deliveries = 0;
    if all_ended(cells) {
        return Ok(ended(0, RunEnd::AllEnded { deliveries }));
    }
    let most = useful_workers(rt, workers);
    for round in 0..budget {
        let Some(taken) = round_over(rt, alloc, cells, plan, dialer, most, round, gate)? else {
            return Ok(broken(round + 1));
        };
        deliveries += taken;
        if all_ended(cells) {
            return Ok(ended(round + 1, RunEnd::AllEnded { deliveries }));
        }
        if deliveries >= budget {
            return Ok(ended(round + 1, RunEnd::Spent { deliveries }));
        }
        if taken == 0 {
            return Ok(ended(round + 1, RunEnd::Still { deliveries }));
        }
    }
    Ok(ended(budget, RunEnd::Spent { deliveries }))
}

/// Plays the round after `round` rounds, with an exchange before it. The answer is how many
/// messages were taken; `None` if stamps ran out.
fn round_over<R, D, G>(
    rt: &R,
    alloc: Global,
    cells: &mut [Cell],
    plan: &mut NodePlan<D::W>,
    dialer: &mut D,
    workers: u32,
    round: u64,
    gate: &G,
) -> Result<Option<u64>, NodeFault>
where
    R: Threads + Wait + Clock + RandomSource + Net + AllocGlobal + Sync,
    D: Dialer,
    G: Gate,
    requires workers { 0 < workers }
    requires over { IsPlanOver (λ b. meaning (b.vtable, b.value)) plan.old plan.old cells.old }
    requires joined { AreCellsJoined (λ b. meaning (b.vtable, b.value)) plan.old.nodes cells.old }
    requires begun { EachIs (λ c. HasBegun (λ b. meaning (b.vtable, b.value)) c) cells.old }
    requires fine { EachIs (λ c. fault_in c ≡ none) cells.old }
    ensures size { length cells.new ≡ length cells.old }
    ensures joined { AreCellsJoined (λ b. meaning (b.vtable, b.value)) plan.old.nodes cells.new }
    ensures begun { EachIs (λ c. HasBegun (λ b. meaning (b.vtable, b.value)) c) cells.new }
    ensures same { EachBecomes (λ a b. IsSameCell a b) cells.old cells.new }
    ensures keeps { KeepsPlan plan.old plan.new }
    ensures noted { IfErr result (λ e. AreNotedAfter e plan.new.kept.items plan.new.ends.items) }
    ensures wires { AreTurned D.W.told D.W.is_joined (pairs_lost_by result)
        plan.old.wires.items plan.new.wires.items }
    ensures letters { HaveCarriedTaken D.W.told D.W.is_joined plan.old plan.new result }
    ensures over { OnOk result (IsPlanOver (λ b. meaning (b.vtable, b.value)) plan.old plan.new cells.new) }
    ensures round { IfOk result (IsRoundOver (λ b. meaning (b.vtable, b.value)) plan.old cells.old plan.new cells.new) }
    ensures parts { IfOk result (λ o. IfSome o (λ taken. IsSharedOver (λ b. meaning (b.vtable, b.value)) workers plan.old.nodes cells.old cells.new)) }
    ensures cause { HasNodeCause (D.faults dialer.old) (D.faults dialer.new) result }
    ensures dialer { D.is_honest dialer.old → D.is_honest dialer.new }
    ensures left { IfErr result (IsRoundFault (λ b. meaning (b.vtable, b.value)) workers round
        plan.old cells.old plan.new.kept.items cells.new) }
    ensures honest { IsHonest D.W.told D.W.is_joined plan.old
        → OnOk result (IsHonest D.W.told D.W.is_joined plan.new × (HaveHeld plan.old.kept.items → HaveHeld plan.new.kept.items)) × IfErr result IsOtherFault }
    ensures carried { HaveReceivedAll D.W.told plan.new.wires.items
        → OnOk result (HaveHeld plan.old.kept.items → HaveHeld plan.new.kept.items) × IfErr result IsOtherFault }
{
    exchange(rt, alloc, dialer, cells, plan, round)?;
    match play_round(rt, cells, plan.nodes, workers, gate) {
        Ok(taken) => Ok(Some(taken)),
        Err(VisitFault::StampEnd) => {
            plan.seen.clear();
            Ok(None)
        }
        Err(VisitFault::NoMemory) => Err(NodeFault::NoMemory),
    }
}

/// Playing that ended in this way after `rounds` rounds.
fn ended(rounds: u64, end: RunEnd) -> Played
    ensures { (result.rounds ≡ rounds) × (result.end ≡ some end) }
{
    Played {
        rounds,
        end: Some(end),
    }
}

/// Playing whose last round was broken off, with `rounds` rounds in all.
fn broken(rounds: u64) -> Played
    ensures { (result.rounds ≡ rounds) × (result.end ≡ none) }
{
    Played { rounds, end: None }
}
