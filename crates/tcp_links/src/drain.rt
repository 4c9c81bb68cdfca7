//! Draining the links between nodes.

ghost use Rattle.std.specs.Prelude.{◌≡◌, ◌+◌, ◌≤◌, length, OnOk};
ghost use Rattle.std.specs.List.{Contains};
ghost use mathlib.Core.List.{IsPrefix};
ghost use Rattle.fifo_links.specs.Link.{taken_from, known_to, SameHead};
ghost use Rattle.worker_laws.specs.Cells.{peers, lane};
ghost use Rattle.agent_cells.specs.Settled.{TailJoins};
ghost use Rattle.agent_cells.specs.State.{state_of, tails_in, IsCell};
ghost use Rattle.agent_workers.specs.Settled.{StaysQuiet};
ghost use Rattle.tcp_links.specs.Drains.{HasDrained};

use agent_cells::{Cell, Sealed};
use dcop_base::{NoMemory, VarId};
use fifo_links::{LinkHead, SLOTS};
use protocol_steps::Envelope;
use std::alloc::Global;

/// Takes all that a cell has sent to an agent of another node from the inner end of that link,
/// oldest first, and adds it to a list.
pub(crate) fn drain_link(
    alloc: Global,
    cell: &mut Cell,
    to: VarId,
    inner: &mut LinkHead<Sealed>,
    drained: &mut Vec<Envelope>,
) -> Result<(), NoMemory>
    requires cell { IsCell (λ b. meaning (b.vtable, b.value)) cell.old }
    requires joined { TailJoins (tails_in cell.old) to inner.old }
    requires peer { Contains (peers (state_of (λ b. meaning (b.vtable, b.value)) cell.old).sent) to }
    ensures quiet { StaysQuiet (λ b. meaning (b.vtable, b.value)) cell.old cell.new }
    ensures end { SameHead inner.old inner.new }
    ensures more { IsPrefix (taken_from inner.old) (taken_from inner.new) }
    ensures drained { OnOk result (HasDrained inner.old drained.old.items inner.new drained.new.items) }
    ensures all { OnOk result (taken_from inner.new ≡ lane to (state_of (λ b. meaning (b.vtable, b.value)) cell.new).sent) }
{
    while cell.settle_tail(to, inner) > 0 {
        take_found(alloc, inner, drained)?;
    }
    Ok(())
}

/// Takes all that is known in the ring of a link, and adds it to a list. It reserves memory for a
/// full ring.
fn take_found(
    alloc: Global,
    inner: &mut LinkHead<Sealed>,
    drained: &mut Vec<Envelope>,
) -> Result<(), NoMemory>
    ensures end { SameHead inner.old inner.new }
    ensures more { IsPrefix (taken_from inner.old) (taken_from inner.new) }
    ensures drained { OnOk result (HasDrained inner.old drained.old.items inner.new drained.new.items) }
    ensures known { OnOk result (length (taken_from inner.old) + length (known_to inner.old) ≤ length (taken_from inner.new)) }
{
    let mut found = Vec::with_capacity(alloc, SLOTS)?;
    inner.take_all(&mut found);
    for sealed in found {
        drained.push(sealed.open())?;
    }
    Ok(())
}
