//! What one link has passed, and its first difference.

ghost use Rattle.std.specs.Prelude.{◌≡◌, ◌↔◌, [], ◌∷◌, ◌++◌, true, min, MatchOption};
ghost use Rattle.std.specs.List.{All};
ghost use Rattle.dcop_base.specs.Limits.{count_limit};
ghost use Rattle.worker_laws.specs.Wires.{IsSame, HasHeld, HasPassed};
ghost use Rattle.link_records.specs.Differences.{drained_by};
ghost use Rattle.link_records.specs.Found.{IsDifferenceOf};
ghost use Rattle.link_records.specs.Keeping.{keeps};

use crate::first::FirstDifference;
use crate::history::History;
use crate::passage::KeptPassage;
use crate::place::place_of;
use dcop_base::VarId;
use protocol_steps::Envelope;
use std::marker::Model;

/// A link from an agent to one in another node, with its first difference: the first place at which
/// what arrived is not what was drained in the same exchange. Contracts see a `Wire` of
/// `worker_laws`, with all that the link has passed. At run time only the first difference is kept,
/// so memory does not grow with the number of passages; no clause speaks of memory.
#[derive(Drop)]
pub struct KeptLink {
    from: VarId,
    to: VarId,
    // How many envelopes were drained before the exchange with the first difference.
    drained: u64,
    // What was passed before that exchange; each exchange took what it drained.
    held: History<KeptPassage>,
    first: Option<FirstDifference>,
    ghost same: { All IsSame held.items },
    ghost counted: { drained ≡ min (drained_by held.items) count_limit },
}

impl Model for KeptLink {
    ghost use Rattle.std.specs.Prelude.{◌++◌};
    ghost use Rattle.worker_laws.specs.Wires.{Wire};
    ghost use Rattle.link_records.specs.Passed.{passed_since};

    ghost Value = { Wire };

    ghost view = { λ l. record { receiver = l.to; sender = l.from; passages = l.held.items ++ passed_since l.first } };
}

/// The first place at which the envelopes that arrived on a link are not those that were drained in
/// the same exchange: the agents at its ends, the position on the link, and the two envelopes
/// there. If one of the exchange's two lists ends there, its envelope is `None`.
#[derive(Drop)]
pub struct LinkDifference {
    /// The agent that sends on the link.
    pub from: VarId,
    /// The agent that receives on the link.
    pub to: VarId,
    /// How many envelopes the link had drained before. Numbers from 2^64 - 1 up are all given as
    /// 2^64 - 1.
    pub at: u64,
    /// What was drained.
    pub sent: Option<Envelope>,
    /// What arrived.
    pub taken: Option<Envelope>,
}

impl KeptLink {
    /// A link that has passed nothing.
    pub fn new(from: VarId, to: VarId) -> KeptLink
        ensures ends { (result.sender ≡ from) × (result.receiver ≡ to) }
        ensures passages { result.passages ≡ [] }
    {
        KeptLink {
            from,
            to,
            drained: 0,
            held: History::new(),
            first: None,
        }
    }

    /// The agent that sends on the link.
    pub fn from(&self) -> VarId
        ensures { result ≡ self.now.sender }
    {
        self.from
    }

    /// The agent that receives on the link.
    pub fn to(&self) -> VarId
        ensures { result ≡ self.now.receiver }
    {
        self.to
    }

    /// Compares what an exchange drained with what arrived. If the link has no difference yet, it
    /// keeps the first one here; nothing else is kept. It takes no memory.
    pub fn keep(&mut self, drained: Vec<Envelope>, arrived: Vec<Envelope>)
        ensures kept { self.new ≡ keeps self.old drained.items arrived.items }
        ensures passed { HasPassed self.old self.new }
    {
        if drained.is_empty() && arrived.is_empty() {
            return;
        }
        self.pass(KeptPassage::new(drained, arrived));
    }

    // Adds this passage to those that the link has passed.
    fn pass(&mut self, passage: KeptPassage)
        ensures ends { (self.new.sender ≡ self.old.sender) × (self.new.receiver ≡ self.old.receiver) }
        ensures passages { self.new.passages ≡ self.old.passages ++ passage ∷ [] }
    {
        if let Some(first) = &mut self.first {
            first.pass(&passage);
            return;
        }
        match place_of(passage.drained(), passage.arrived()) {
            Some(place) => self.first = Some(FirstDifference::new(passage, place)),
            None => {
                let more = passage.drained().len() as u64;
                self.drained = self.drained.saturating_add(more);
                self.held = self.held.and(&passage);
            }
        }
    }

    /// Whether each exchange took on the link exactly what it drained there.
    pub(crate) fn has_held(&self) -> bool
        ensures { (result ≡ true) ↔ HasHeld self.now }
    {
        self.first.is_none()
    }

    /// The first difference of the link. `None` exactly when each exchange took on it what it
    /// drained. It takes no memory.
    pub(crate) fn into_difference(self) -> Option<LinkDifference>
        ensures { MatchOption result (HasHeld self)
            (λ d. (d.from ≡ self.sender) × (d.to ≡ self.receiver) × IsDifferenceOf self d.at d.sent d.taken) }
    {
        let KeptLink {
            from,
            to,
            drained,
            first,
            ..
        } = self;
        let first = first?;
        Some(LinkDifference {
            from,
            to,
            at: drained.saturating_add(first.place as u64),
            sent: first.sent,
            taken: first.taken,
        })
    }
}
