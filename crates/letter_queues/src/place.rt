//! The place of a sender's link in an inbox.

ghost use Rattle.std.specs.Prelude.{◌≡◌, true, ◌==◌};
ghost use Rattle.std.specs.List.{position};
ghost use Rattle.std.specs.List.Sorted.{IsStrictlyIncreasing};
ghost use Rattle.letter_queues.specs.Inboxes.{senders};

use crate::link::Link;
use dcop_base::VarId;

/// The most links among which a walk finds one about as fast as halving does.
const FEW: usize = 16;

/// Whether each of these senders is greater than the one before. No clause says that it is where
/// the answer is `false`: a wrong one only makes searches slow.
pub(crate) fn are_ascending(senders: &[VarId]) -> bool
    ensures { result ≡ true → IsStrictlyIncreasing senders.now }
{
    senders.is_sorted_by(|sender, next| sender < next)
}

/// The place of this sender's link, if it has one. `ascending` says that the senders ascend.
pub(crate) fn place_of(links: &[Link], ascending: bool, from: VarId) -> Option<usize>
    requires { ascending ≡ true → IsStrictlyIncreasing (senders links.now) }
    ensures { result ≡ position (λ l. l.from == from) links.now }
{
    if links.len() > FEW {
        return place_in_many(links, ascending, from);
    }
    place_by_walking(links, from)
}

/// Does what [`place_of`] does, for many links. It stands apart, so that the way to one of few links
/// stays short.
#[cold]
#[inline(never)]
fn place_in_many(links: &[Link], ascending: bool, from: VarId) -> Option<usize>
    requires { ascending ≡ true → IsStrictlyIncreasing (senders links.now) }
    ensures { result ≡ position (λ l. l.from == from) links.now }
{
    if ascending {
        return place_by_halving(links, from);
    }
    place_by_walking(links, from)
}

/// The place of this sender's link, if it has one, among links whose senders ascend.
fn place_by_halving(links: &[Link], from: VarId) -> Option<usize>
    requires { IsStrictlyIncreasing (senders links.now) }
    ensures { result ≡ position (λ l. l.from == from) links.now }
{
    links.binary_search_by_key(&from, |link| link.from()).ok()
}

/// The place of this sender's link, if it has one, among links in any order.
fn place_by_walking(links: &[Link], from: VarId) -> Option<usize>
    ensures { result ≡ position (λ l. l.from == from) links.now }
{
    links.iter().position(|link| link.from() == from)
}
