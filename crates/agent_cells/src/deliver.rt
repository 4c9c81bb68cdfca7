//! What a step sends.

ghost use Rattle.std.specs.Prelude.{◌≡◌, ◌==◌, ◌∷◌, [], ◌≤◌, OnOk};
ghost use Rattle.std.specs.List.{position};
ghost use Rattle.std.specs.List.Sorted.{IsStrictlyIncreasing};
ghost use Rattle.dcop_base.specs.Limits.{amount_limit};
ghost use Rattle.worker_laws.specs.Cells.{peers};
ghost use Rattle.agent_cells.specs.Links.{lanes_sent, AreSameTails};
ghost use Rattle.agent_cells.specs.Delivered.{HasDelivered};

use crate::places::place_of;
use crate::sealed::Sealed;
use dcop_base::{NoMemory, VarId};
use fifo_links::LinkTail;
use protocol_steps::{Envelope, Outbox, Parcel};
use std::alloc::Global;

/// The place of the tail to this peer, found by binary search.
fn tail_to(tails: &[(VarId, LinkTail<Sealed>)], to: VarId) -> Option<usize>
    requires ascend { IsStrictlyIncreasing (peers (lanes_sent tails.now)) }
    ensures { result ≡ position (λ t. t.0 == to) tails.now }
{
    place_of(tails, to)
}

/// Sends one parcel with this stamp to its receiver. If there is no link to the receiver, nothing
/// is sent.
fn send_one(
    alloc: Global,
    tails: &mut [(VarId, LinkTail<Sealed>)],
    parcel: Parcel,
    stamp: u64,
) -> Result<(), NoMemory>
    requires ascend { IsStrictlyIncreasing (peers (lanes_sent tails.old)) }
    requires stamp { stamp ≤ amount_limit }
    ensures same { AreSameTails tails.old tails.new }
    ensures sent { OnOk result (HasDelivered tails.old stamp (parcel ∷ []) tails.new) }
{
    let Parcel { to, message } = parcel;
    let Some(place) = tail_to(tails, to) else {
        return Ok(());
    };
    let sealed = Sealed::new(alloc, Envelope { stamp, message })?;
    tails[place].1.push(sealed).map_err(|_refused| NoMemory)
}

/// Sends each parcel with this stamp to its receiver, in order. If there is no link to a receiver,
/// its parcel is not sent.
#[tactic(auto, using(crate::proofs::SameLaws::same_tails, crate::proofs::SameLaws::tails_then, crate::proofs::DeliverLaws::delivered_none, crate::proofs::DeliverLaws::delivered_more, crate::proofs::DeliverLaws::delivered_peers))]
pub(crate) fn deliver(
    alloc: Global,
    tails: &mut [(VarId, LinkTail<Sealed>)],
    out: Outbox,
    stamp: u64,
) -> Result<(), NoMemory>
    requires ascend { IsStrictlyIncreasing (peers (lanes_sent tails.old)) }
    requires stamp { stamp ≤ amount_limit }
    ensures same { AreSameTails tails.old tails.new }
    ensures sent { OnOk result (HasDelivered tails.old stamp out tails.new) }
{
    for parcel in out.into_vec() {
        send_one(alloc, tails, parcel, stamp)?;
    }
    Ok(())
}
