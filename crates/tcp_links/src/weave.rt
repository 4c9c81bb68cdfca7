//! Draining all links between nodes, and feeding what arrived on them.

ghost use Rattle.std.specs.Prelude.{◌≡◌, ◌<◌, ℕ, [], true, false, length, Some, slice_get, OnOk};
ghost use Rattle.fifo_links.specs.Link.{sent_on, taken_from};
ghost use Rattle.worker_laws.specs.Cells.{lane, EachAre};
ghost use Rattle.agent_cells.specs.State.{state_of};
ghost use Rattle.agent_workers.specs.Joined.{EachBecomes};
ghost use Rattle.agent_workers.specs.Settled.{StaysQuiet};
ghost use Rattle.node_exchange.specs.Passings.{holding, emptied};
ghost use Rattle.tcp_links.specs.Kept.{IsNoted, IsFedNoted, AreFedNoted, AreFedButOne, HasSameFeed, IsToNote, AreToNote, MayKeep, MayKeepAll};
ghost use Rattle.tcp_links.specs.Left.{AreSameEnds};
ghost use Rattle.tcp_links.specs.Woven.{AreLinksIdle, AreLinksOf, CanDrain, CanDrainAll, CanFeed, CanFeedAll, HasDrainedLink, HaveDrained, HasFedLink, HaveFed, AreEmptied, KnowsElse, SentIsDrained, FedIsTaken};

use crate::drain::drain_link;
use crate::feed::feed_link;
use crate::plan::InnerEnds;
use crate::seen::{is_still, slot};
use agent_cells::Cell;
use dcop_base::{NoMemory, VarId};
use link_records::KeptLink;
use node_exchange::LinkPassing;
use std::alloc::Global;

/// Drains each link between nodes completely, and gives what was drained to the passings, which are
/// empty before. It leaves out links whose sender has done nothing since the last exchange.
pub(crate) fn drain_all(
    alloc: Global,
    cells: &mut [Cell],
    still: &[bool],
    kept: &[KeptLink],
    ends: &mut [InnerEnds],
    passings: &mut [LinkPassing],
) -> Result<(), NoMemory>
    requires sizes { length ends.old ≡ length kept.now }
    requires can { CanDrainAll (λ b. meaning (b.vtable, b.value)) kept.now ends.old cells.old }
    requires drained { SentIsDrained (λ b. meaning (b.vtable, b.value)) still.now kept.now ends.old cells.old }
    requires idle { (node : ℕ → ℕ) × AreLinksIdle node kept.now passings.old }
    ensures quiet { EachBecomes (λ a b. StaysQuiet (λ b. meaning (b.vtable, b.value)) a b) cells.old cells.new }
    ensures ends { EachAre AreSameEnds ends.old ends.new }
    ensures feeds { EachAre (λ a b. HasSameFeed a b) ends.old ends.new }
    ensures drained { OnOk result ((node : ℕ → ℕ) → AreLinksIdle node kept.now passings.old
        → HaveDrained (λ b. meaning (b.vtable, b.value)) node (length kept.now) cells.old kept.now ends.old ends.new passings.new) }
{
    for (place, link) in kept.iter().enumerate() {
        drain_at(
            alloc,
            cells,
            still,
            link,
            &mut ends[place],
            &mut passings[place],
        )?;
    }
    Ok(())
}

/// Drains all that the sender's cell has sent on a link. If that cell has done nothing since the
/// last exchange, there is nothing to drain.
fn drain_at(
    alloc: Global,
    cells: &mut [Cell],
    still: &[bool],
    link: &KeptLink,
    ends: &mut InnerEnds,
    passing: &mut LinkPassing,
) -> Result<(), NoMemory>
    requires inside { link.now.sender < length cells.old }
    requires can { (c : _) → slice_get cells.old link.now.sender ≡ Some c → CanDrain (λ b. meaning (b.vtable, b.value)) c link.now ends.old }
    requires link { (passing.old.from ≡ link.now.sender) × (passing.old.to ≡ link.now.receiver) }
    requires sent { (c : _) → slice_get cells.old link.now.sender ≡ Some c → slice_get still.now link.now.sender ≡ Some true
        → taken_from ends.old.drain ≡ lane link.now.receiver (state_of (λ b. meaning (b.vtable, b.value)) c).sent }
    requires idle { passing.old.drained ≡ [] }
    ensures quiet { EachBecomes (λ a b. StaysQuiet (λ b. meaning (b.vtable, b.value)) a b) cells.old cells.new }
    ensures ends { AreSameEnds ends.old ends.new }
    ensures feeds { HasSameFeed ends.old ends.new }
    ensures drained { OnOk result ((c : _) → slice_get cells.old link.now.sender ≡ Some c
        → HasDrainedLink (λ b. meaning (b.vtable, b.value)) c link.now ends.old ends.new passing.new.drained) }
    ensures passing { passing.new ≡ holding passing.old passing.new.drained }
{
    let (from, to) = (passing.from(), passing.to());
    if is_still(still, from) {
        return Ok(());
    }
    let mut drained = Vec::new(alloc);
    let at = slot(from);
    drain_link(alloc, &mut cells[at], to, &mut ends.drain, &mut drained)?;
    passing.hold(drained);
    Ok(())
}

/// Feeds what arrived on each link to the cell that receives it. The link compares it with what was
/// drained. Both are taken out of the passings. It leaves out links on which nothing passed and
/// nothing waits, if the receiver has done nothing since the last exchange.
pub(crate) fn feed_all(
    alloc: Global,
    cells: &mut [Cell],
    still: &[bool],
    kept: &mut [KeptLink],
    ends: &mut [InnerEnds],
    passings: &mut [LinkPassing],
) -> Result<(), NoMemory>
    requires sizes { (length ends.old ≡ length kept.old) × (length passings.old ≡ length kept.old) }
    requires can { CanFeedAll (λ b. meaning (b.vtable, b.value)) kept.old ends.old cells.old }
    requires links { AreLinksOf kept.old passings.old }
    requires taken { FedIsTaken (λ b. meaning (b.vtable, b.value)) still.now kept.old ends.old cells.old }
    ensures quiet { EachBecomes (λ a b. StaysQuiet (λ b. meaning (b.vtable, b.value)) a b) cells.old cells.new }
    ensures ends { EachAre AreSameEnds ends.old ends.new }
    ensures kept { MayKeepAll kept.old passings.old kept.new }
    ensures noted { AreToNote kept.old ends.old passings.old → AreFedButOne kept.new ends.new }
    ensures all { OnOk result (AreToNote kept.old ends.old passings.old → AreFedNoted kept.new ends.new) }
    ensures sizes { (length kept.new ≡ length kept.old) × (length ends.new ≡ length ends.old) × (length passings.new ≡ length passings.old) }
    ensures fed { OnOk result (HaveFed (λ b. meaning (b.vtable, b.value)) (length kept.old) cells.new kept.old kept.new ends.old ends.new passings.old) }
    ensures left { OnOk result (AreEmptied (length kept.old) passings.old passings.new) }
{
    for place in 0..kept.len() {
        feed_at(
            alloc,
            cells,
            still,
            &mut kept[place],
            &mut ends[place],
            &mut passings[place],
        )?;
    }
    Ok(())
}

/// Feeds what arrived on a link to the cell that receives it. The link compares it with what was
/// drained.
fn feed_at(
    alloc: Global,
    cells: &mut [Cell],
    still: &[bool],
    link: &mut KeptLink,
    ends: &mut InnerEnds,
    passing: &mut LinkPassing,
) -> Result<(), NoMemory>
    requires inside { link.old.receiver < length cells.old }
    requires can { (c : _) → slice_get cells.old link.old.receiver ≡ Some c → CanFeed (λ b. meaning (b.vtable, b.value)) c link.old ends.old }
    requires link { (passing.old.from ≡ link.old.sender) × (passing.old.to ≡ link.old.receiver) }
    requires taken { (c : _) → slice_get cells.old link.old.receiver ≡ Some c → slice_get still.now link.old.receiver ≡ Some true
        → ends.old.waits ≡ false → lane link.old.sender (state_of (λ b. meaning (b.vtable, b.value)) c).taken ≡ sent_on ends.old.feed }
    ensures quiet { EachBecomes (λ a b. StaysQuiet (λ b. meaning (b.vtable, b.value)) a b) cells.old cells.new }
    ensures ends { AreSameEnds ends.old ends.new }
    ensures kept { MayKeep link.old passing.old link.new }
    ensures noted { IsToNote link.old ends.old passing.old → IsNoted link.new ends.new }
    ensures all { OnOk result (IsToNote link.old ends.old passing.old → IsFedNoted link.new ends.new) }
    ensures known { KnowsElse (λ b. meaning (b.vtable, b.value)) link.old.receiver link.old.sender cells.old cells.new }
    ensures fed { OnOk result ((c : _) → slice_get cells.new link.old.receiver ≡ Some c
        → HasFedLink (λ b. meaning (b.vtable, b.value)) c link.old link.new ends.old ends.new passing.old) }
    ensures left { OnOk result (passing.new ≡ emptied passing.old) }
{
    let (from, to) = (passing.from(), passing.to());
    if rests(still, to, ends, passing) {
        return Ok(());
    }
    let (drained, arrived) = passing.take_lists(alloc);
    let at = slot(to);
    ends.waits = feed_link(
        alloc,
        &mut cells[at],
        from,
        &mut ends.feed,
        arrived.as_slice(),
    )?;
    link.keep(drained, arrived);
    Ok(())
}

/// Whether nothing passed on a link to this agent in this exchange, nothing waits on it, and its
/// receiver has done nothing since the last exchange.
fn rests(still: &[bool], to: VarId, ends: &InnerEnds, passing: &LinkPassing) -> bool
    ensures idle { result ≡ true → (passing.now.drained ≡ []) × (passing.now.arrived ≡ []) }
    ensures waits { result ≡ true → ends.now.waits ≡ false }
    ensures still { result ≡ true → slice_get still.now to ≡ Some true }
{
    if ends.waits {
        return false;
    }
    if !passing.is_idle() {
        return false;
    }
    is_still(still, to)
}
