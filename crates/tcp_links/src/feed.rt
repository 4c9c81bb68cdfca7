//! Feeding what arrived from another node to the cell that receives it.

ghost use Rattle.std.specs.Prelude.{◌≡◌, ◌≢◌, ℕ, ◌++◌, false, IfOk, OnOk};
ghost use Rattle.std.specs.List.{Contains};
ghost use mathlib.Core.List.{IsPrefix};
ghost use Rattle.fifo_links.specs.Link.{sent_on, SameTail};
ghost use Rattle.worker_laws.specs.Cells.{peers, lane, known_from};
ghost use Rattle.agent_cells.specs.Settled.{HeadJoins};
ghost use Rattle.agent_cells.specs.State.{state_of, heads_in, IsCell};
ghost use Rattle.agent_workers.specs.Settled.{StaysQuiet};
ghost use Rattle.tcp_links.specs.Feeds.{AllWaits};

use agent_cells::{Cell, Sealed};
use dcop_base::{NoMemory, VarId};
use fifo_links::LinkTail;
use protocol_steps::Envelope;
use std::alloc::Global;

/// Sends what arrived from an agent of another node on the inner end of its link, in order, and
/// settles the link. The cell can then take it after what arrived before. The answer is whether
/// anything waits for the cell then.
pub(crate) fn feed_link(
    alloc: Global,
    cell: &mut Cell,
    from: VarId,
    inner: &mut LinkTail<Sealed>,
    arrived: &[Envelope],
) -> Result<bool, NoMemory>
    requires cell { IsCell (λ b. meaning (b.vtable, b.value)) cell.old }
    requires joined { HeadJoins (heads_in cell.old) from inner.old }
    requires peer { Contains (peers (state_of (λ b. meaning (b.vtable, b.value)) cell.old).taken) from }
    ensures quiet { StaysQuiet (λ b. meaning (b.vtable, b.value)) cell.old cell.new }
    ensures end { SameTail inner.old inner.new }
    ensures more { IsPrefix (sent_on inner.old) (sent_on inner.new) }
    ensures fed { OnOk result (sent_on inner.new ≡ sent_on inner.old ++ arrived.now) }
    ensures others { (j : ℕ) → j ≢ from → known_from j (state_of (λ b. meaning (b.vtable, b.value)) cell.new).known ≡ known_from j (state_of (λ b. meaning (b.vtable, b.value)) cell.old).known }
    ensures waits { OnOk result (AllWaits (state_of (λ b. meaning (b.vtable, b.value)) cell.new) from inner.new) }
    ensures none { IfOk result (λ waits. waits ≡ false → lane from (state_of (λ b. meaning (b.vtable, b.value)) cell.new).taken ≡ sent_on inner.new) }
{
    send_all(alloc, inner, arrived)?;
    Ok(cell.settle_head(from, inner) > 0)
}

/// Sends copies of these envelopes, in order.
fn send_all(
    alloc: Global,
    inner: &mut LinkTail<Sealed>,
    arrived: &[Envelope],
) -> Result<(), NoMemory>
    ensures end { SameTail inner.old inner.new }
    ensures more { IsPrefix (sent_on inner.old) (sent_on inner.new) }
    ensures sent { OnOk result (sent_on inner.new ≡ sent_on inner.old ++ arrived.now) }
{
    for envelope in arrived {
        let sealed = Sealed::new(alloc, copy_of(envelope)?)?;
        if inner.push(sealed).is_err() {
            return Err(NoMemory);
        }
    }
    Ok(())
}

/// A copy of the envelope.
fn copy_of(envelope: &Envelope) -> Result<Envelope, NoMemory>
    ensures { IfOk result (λ copy. copy ≡ envelope.now) }
{
    let message = envelope.message.clone()?;
    Ok(Envelope {
        stamp: envelope.stamp,
        message,
    })
}
