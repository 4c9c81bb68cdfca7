//! The first difference between what was drained of links and what arrived.

ghost use Rattle.std.specs.Prelude.{◌≡◌, ◌↔◌, ◌+◌, ◌<◌, true, length, MatchOption};
ghost use Rattle.worker_laws.specs.Wires.{HaveHeld};
ghost use Rattle.link_records.specs.Differences.{IsLowerLink, Differs};
ghost use Rattle.link_records.specs.Found.{IsLowest, IsLowestOf};
ghost use Rattle.link_records.specs.Left.{IsRenewed};

use crate::kept::{KeptLink, LinkDifference};
use std::mem;

/// The first difference between what was drained of these links and what arrived in the same
/// exchange: that of the lowest link that differs, by its sender and then its receiver. `None`
/// exactly when each exchange took on each link what it drained there. The link with the difference
/// is then like a new one, and every other link stays as it was. It takes no memory.
pub fn take_difference(kept: &mut [KeptLink]) -> Option<LinkDifference>
    ensures found { MatchOption result (HaveHeld kept.old) (λ d. Differs kept.old d.from d.to d.at d.sent d.taken) }
    ensures left { MatchOption result (kept.new ≡ kept.old) (λ d. IsRenewed kept.old d.from d.to kept.new) }
{
    let place = lowest_differing(kept)?;
    let link = &mut kept[place];
    let fresh = KeptLink::new(link.from(), link.to());
    mem::replace(link, fresh).into_difference()
}

/// The position of the lowest link that differs. `None` exactly when none does.
fn lowest_differing(kept: &[KeptLink]) -> Option<usize>
    ensures { MatchOption result (HaveHeld kept.now) (IsLowest kept.now (length kept.now)) }
{
    let mut lowest = None;
    for link in 0..kept.len() {
        lowest = lower_of(kept, lowest, link);
    }
    lowest
}

/// The lowest link that differs, among those before this one and this one.
fn lower_of(kept: &[KeptLink], lowest: Option<usize>, link: usize) -> Option<usize>
    requires inside { link < length kept.now }
    requires lowest { IsLowestOf kept.now link lowest }
    ensures { IsLowestOf kept.now (link + 1) result }
{
    if kept[link].has_held() {
        return lowest;
    }
    if let Some(old) = lowest {
        if !comes_before(&kept[link], &kept[old]) {
            return lowest;
        }
    }
    Some(link)
}

/// Whether a link comes before another.
fn comes_before(one: &KeptLink, other: &KeptLink) -> bool
    ensures { (result ≡ true) ↔ IsLowerLink one.now other.now }
{
    let (sender, receiver) = (one.from(), one.to());
    if sender != other.from() {
        return sender < other.from();
    }
    receiver < other.to()
}
