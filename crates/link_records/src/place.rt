//! The first position at which two lists of envelopes differ.

ghost use Rattle.std.specs.Prelude.{◌≡◌, ◌↔◌, true, MatchOption, slice_get};
ghost use Rattle.link_records.specs.Differences.{DifferAt};

use crate::same::is_same;
use protocol_steps::Envelope;

/// The first position at which two lists differ; one of them may end there.
pub(crate) fn place_of(drained: &[Envelope], arrived: &[Envelope]) -> Option<usize>
    ensures { MatchOption result (arrived.now ≡ drained.now) (λ k. DifferAt drained.now arrived.now k) }
{
    let most = drained.len().max(arrived.len());
    for place in 0..most {
        if !are_same_at(drained, arrived, place) {
            return Some(place);
        }
    }
    None
}

/// Whether two lists have the same envelope at a position, or neither has one.
fn are_same_at(drained: &[Envelope], arrived: &[Envelope], place: usize) -> bool
    ensures { (result ≡ true) ↔ (slice_get arrived.now place ≡ slice_get drained.now place) }
{
    match arrived.get(place) {
        Some(taken) => match drained.get(place) {
            Some(sent) => is_same(taken, sent),
            None => false,
        },
        None => drained.len() <= place,
    }
}
