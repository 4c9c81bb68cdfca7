//! What one exchange did on one link.

ghost use Rattle.std.specs.Prelude.{◌≡◌, slice_get};

use protocol_steps::Envelope;
use std::marker::Model;

/// What one exchange did on one link: the envelopes that it drained in the sender's node, and those
/// that arrived in the receiver's. Contracts see the two lists.
#[derive(Drop)]
pub(crate) struct KeptPassage {
    drained: Vec<Envelope>,
    arrived: Vec<Envelope>,
}

impl Model for KeptPassage {
    ghost use Rattle.worker_laws.specs.Wires.{Passage};

    ghost Value = { Passage };

    ghost view = { λ p. record { drained = p.drained.items; arrived = p.arrived.items } };
}

impl KeptPassage {
    /// A passage with these two lists.
    pub(crate) fn new(drained: Vec<Envelope>, arrived: Vec<Envelope>) -> KeptPassage
        ensures drained { result.drained ≡ drained.items }
        ensures arrived { result.arrived ≡ arrived.items }
    {
        KeptPassage { drained, arrived }
    }

    /// What was drained, oldest first.
    pub(crate) fn drained(&self) -> &[Envelope]
        ensures { result.now ≡ self.now.drained }
    {
        self.drained.as_slice()
    }

    /// What arrived, oldest first.
    pub(crate) fn arrived(&self) -> &[Envelope]
        ensures { result.now ≡ self.now.arrived }
    {
        self.arrived.as_slice()
    }

    /// Takes the envelopes at this position out of the two lists; `None` if a list ends there.
    pub(crate) fn take_out(&mut self, place: usize) -> (Option<Envelope>, Option<Envelope>)
        ensures drained { result.0 ≡ slice_get self.old.drained place }
        ensures arrived { result.1 ≡ slice_get self.old.arrived place }
    {
        let drained = take_at(&mut self.drained, place);
        let arrived = take_at(&mut self.arrived, place);
        (drained, arrived)
    }
}

// Takes the envelope at this position out of a list.
fn take_at(list: &mut Vec<Envelope>, place: usize) -> Option<Envelope>
    ensures { result ≡ slice_get list.old.items place }
{
    if place < list.len() {
        Some(list.swap_remove(place))
    } else {
        None
    }
}
