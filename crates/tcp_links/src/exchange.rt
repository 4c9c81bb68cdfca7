//! An exchange between nodes.

ghost use Rattle.std.specs.Prelude.{◌≡◌, OnOk, IfErr};
ghost use Rattle.worker_laws.specs.Wires.{HaveHeld};
ghost use Rattle.agent_cells.specs.State.{IsCell};
ghost use Rattle.agent_workers.specs.Joined.{EachIs, EachBecomes, AreCellsJoined};
ghost use Rattle.agent_workers.specs.Settled.{StaysQuiet};
ghost use Rattle.node_exchange.specs.Honest.{HaveReceivedAll};
ghost use Rattle.node_exchange.specs.Turned.{AreTurned};
ghost use Rattle.tcp_links.specs.Left.{KeepsPlan, pairs_lost_by, AreNotedAfter};
ghost use Rattle.tcp_links.specs.Carried.{HaveCarriedTaken};
ghost use Rattle.tcp_links.specs.Plans.{IsPlan, IsHonest};
ghost use Rattle.tcp_links.specs.Faults.{HasNodeCause, IsOtherFault};
ghost use Rattle.tcp_links.specs.Woven.{AreWoven};
ghost use Rattle.worker_laws.specs.OneNode.{home};
ghost use Rattle.tcp_links.specs.Over.{AreReadyToExchange, HasExchanged, IsExchangeFault};

use crate::fault::{NodeFault, node_fault};
use crate::plan::NodePlan;
use crate::seen::{note_all, still_cells};
use crate::weave::{drain_all, feed_all};
use agent_cells::Cell;
use node_exchange::pass_all;
use std::alloc::{AllocGlobal, Global};
use std::net::Net;
use std::random::RandomSource;
use std::sync::Wait;
use std::thread::Threads;
use std::time::Clock;
use wire_pump::Dialer;

/// Drains each link between nodes, sends over the wires what was drained, and feeds what arrived to
/// the receivers. The exchange comes after `round` rounds. Links on which nothing was sent are left
/// out, and so are wires between nodes that have nothing to send. At its end the passings are empty
/// again, and the length of each cell's journal is noted.
pub(crate) fn exchange<R, D>(
    rt: &R,
    alloc: Global,
    dialer: &mut D,
    cells: &mut [Cell],
    plan: &mut NodePlan<D::W>,
    round: u64,
) -> Result<(), NodeFault>
where
    R: Threads + Wait + Clock + RandomSource + Net + AllocGlobal + Sync,
    D: Dialer,
    requires plan { IsPlan plan.old }
    requires woven { AreWoven (λ b. meaning (b.vtable, b.value)) plan.old.nodes plan.old.agents plan.old.kept.items plan.old.ends.items cells.old }
    requires joined { AreCellsJoined (λ b. meaning (b.vtable, b.value)) plan.old.nodes cells.old }
    requires ready { AreReadyToExchange (λ b. meaning (b.vtable, b.value)) (home plan.old.nodes plan.old.agents) plan.old cells.old }
    requires sound { EachIs (λ c. IsCell (λ b. meaning (b.vtable, b.value)) c) cells.old }
    ensures quiet { EachBecomes (λ a b. StaysQuiet (λ b. meaning (b.vtable, b.value)) a b) cells.old cells.new }
    ensures keeps { KeepsPlan plan.old plan.new }
    ensures noted { IfErr result (λ e. AreNotedAfter e plan.new.kept.items plan.new.ends.items) }
    ensures wires { AreTurned D.W.told D.W.is_joined (pairs_lost_by result)
        plan.old.wires.items plan.new.wires.items }
    ensures letters { HaveCarriedTaken D.W.told D.W.is_joined plan.old plan.new result }
    ensures exchanged { OnOk result (HasExchanged (λ b. meaning (b.vtable, b.value)) plan.old cells.old plan.new cells.new) }
    ensures cause { HasNodeCause (D.faults dialer.old) (D.faults dialer.new) result }
    ensures dialer { D.is_honest dialer.old → D.is_honest dialer.new }
    ensures left { IfErr result (IsExchangeFault (λ b. meaning (b.vtable, b.value)) round
        plan.old cells.old plan.new.kept.items cells.new) }
    ensures honest { IsHonest D.W.told D.W.is_joined plan.old
        → OnOk result (IsHonest D.W.told D.W.is_joined plan.new × (HaveHeld plan.old.kept.items → HaveHeld plan.new.kept.items)) × IfErr result IsOtherFault }
    ensures carried { HaveReceivedAll D.W.told plan.new.wires.items
        → OnOk result (HaveHeld plan.old.kept.items → HaveHeld plan.new.kept.items) × IfErr result IsOtherFault }
{
    let nodes = plan.nodes;
    let still = still_cells(cells, plan.seen.as_slice());
    drain_all(
        alloc,
        cells,
        &still,
        plan.kept.as_slice(),
        plan.ends.as_mut_slice(),
        plan.passings.as_mut_slice(),
    )?;
    if let Err(fault) = pass_all(
        rt,
        alloc,
        dialer,
        &mut plan.wires,
        plan.passings.as_mut_slice(),
        nodes,
    ) {
        return Err(node_fault(round, fault));
    }
    feed_all(
        alloc,
        cells,
        &still,
        plan.kept.as_mut_slice(),
        plan.ends.as_mut_slice(),
        plan.passings.as_mut_slice(),
    )?;
    note_all(cells, &mut plan.seen)?;
    Ok(())
}
