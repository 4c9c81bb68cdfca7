//! Settling links, with both ends in one thread.

ghost use Rattle.std.specs.Prelude.{◌≡◌, ◌==◌};
ghost use Rattle.std.specs.List.{position};
ghost use Rattle.std.specs.List.Sorted.{IsStrictlyIncreasing};
ghost use Rattle.fifo_links.specs.Link.{sent_on, taken_from, SameTail, SameHead};
ghost use Rattle.worker_laws.specs.Cells.{peers};
ghost use Rattle.agent_cells.specs.Links.{lanes_sent, lanes_taken};
ghost use Rattle.agent_cells.specs.Settled.{TailJoins, HeadJoins, EndsJoin, SettlesTail, SettlesHead, TailIsSettled, HeadIsSettled, EndsAreSettled};

use crate::places::place_near;
use crate::sealed::Sealed;
use dcop_base::VarId;
use fifo_links::{LinkHead, LinkTail, settle};

/// The place of the head from this peer. It is looked for at place `near` first, and then by binary
/// search.
fn head_from(heads: &[(VarId, LinkHead<Sealed>)], from: VarId, near: usize) -> Option<usize>
    requires ascend { IsStrictlyIncreasing (peers (lanes_taken heads.now)) }
    ensures { result ≡ position (λ h. h.0 == from) heads.now }
{
    place_near(heads, from, near)
}

/// The place of the tail to this peer, which is looked for in the same way.
fn tail_to(tails: &[(VarId, LinkTail<Sealed>)], to: VarId, near: usize) -> Option<usize>
    requires ascend { IsStrictlyIncreasing (peers (lanes_sent tails.now)) }
    ensures { result ≡ position (λ t. t.0 == to) tails.now }
{
    place_near(tails, to, near)
}

/// Settles the link to this peer, whose head is given. The tail is looked for at place `near`
/// first. Returns how many messages are in its ring; 0 if there is no such link.
pub(crate) fn settle_tail_to(
    tails: &mut [(VarId, LinkTail<Sealed>)],
    to: VarId,
    near: usize,
    head: &mut LinkHead<Sealed>,
) -> u32
    requires ascend { IsStrictlyIncreasing (peers (lanes_sent tails.old)) }
    requires joined { TailJoins tails.old to head.old }
    ensures tails { SettlesTail tails.old to tails.new }
    ensures head { SameHead head.old head.new }
    ensures taken { taken_from head.new ≡ taken_from head.old }
    ensures settled { TailIsSettled tails.new to head.new result }
{
    match tail_to(tails, to, near) {
        Some(place) => settle(&mut tails[place].1, head),
        None => 0,
    }
}

/// Settles the link from this peer, whose tail is given. Returns how many messages are in its ring;
/// 0 if there is no such link.
pub(crate) fn settle_head_from(
    heads: &mut [(VarId, LinkHead<Sealed>)],
    from: VarId,
    tail: &mut LinkTail<Sealed>,
) -> u32
    requires ascend { IsStrictlyIncreasing (peers (lanes_taken heads.old)) }
    requires joined { HeadJoins heads.old from tail.old }
    ensures heads { SettlesHead heads.old from heads.new }
    ensures tail { SameTail tail.old tail.new }
    ensures sent { sent_on tail.new ≡ sent_on tail.old }
    ensures settled { HeadIsSettled heads.new from tail.new result }
{
    match head_from(heads, from, 0) {
        Some(place) => settle(tail, &mut heads[place].1),
        None => 0,
    }
}

/// Settles the link to one cell from another. Its tail is looked for at place `near_tail` first,
/// and its head at place `near_head`. Returns how many messages are in its ring; 0 if there is no
/// such link.
pub(crate) fn settle_between(
    tails: &mut [(VarId, LinkTail<Sealed>)],
    to: VarId,
    near_tail: usize,
    heads: &mut [(VarId, LinkHead<Sealed>)],
    from: VarId,
    near_head: usize,
) -> u32
    requires sources { IsStrictlyIncreasing (peers (lanes_taken heads.old)) }
    requires targets { IsStrictlyIncreasing (peers (lanes_sent tails.old)) }
    requires joined { EndsJoin tails.old to heads.old from }
    ensures tails { SettlesTail tails.old to tails.new }
    ensures heads { SettlesHead heads.old from heads.new }
    ensures settled { EndsAreSettled tails.new to heads.new from result }
{
    match head_from(heads, from, near_head) {
        Some(place) => settle_tail_to(tails, to, near_tail, &mut heads[place].1),
        None => 0,
    }
}
