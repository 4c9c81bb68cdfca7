//! The first difference on one link.

ghost use Rattle.std.specs.Prelude.{◌≡◌, ◌<◌, [], ◌∷◌, ◌++◌, length};
ghost use Rattle.link_records.specs.Differences.{DifferAt};
ghost use Rattle.link_records.specs.Firsts.{DiffersFirst};

use crate::history::History;
use crate::passage::KeptPassage;
use protocol_steps::Envelope;

/// The first place at which what arrived on a link is not what was drained in the same exchange.
#[derive(Drop)]
pub(crate) struct FirstDifference {
    /// The position in the exchange's two lists.
    pub(crate) place: usize,
    /// The envelope that was drained there; `None` if that list is over.
    pub(crate) sent: Option<Envelope>,
    /// The envelope that arrived there; `None` if that list is over.
    pub(crate) taken: Option<Envelope>,
    /// What the exchange passed, and then what the link has passed since.
    pub(crate) since: History<KeptPassage>,
    ghost some: { 0 < length since.items },
    ghost differs: { DiffersFirst since.items place sent taken },
}

impl FirstDifference {
    /// The difference at this position of a passage. Before it the two lists are the same.
    pub(crate) fn new(passage: KeptPassage, place: usize) -> FirstDifference
        requires { DifferAt passage.drained passage.arrived place }
        ensures { result.since.items ≡ passage ∷ [] }
    {
        let since = History::new().and(&passage);
        let mut passage = passage;
        let (sent, taken) = passage.take_out(place);
        FirstDifference {
            place,
            sent,
            taken,
            since,
        }
    }

    /// Passes this passage too. Nothing of it is kept at run time.
    pub(crate) fn pass(&mut self, passage: &KeptPassage)
        ensures { self.new.since.items ≡ self.old.since.items ++ passage.now ∷ [] }
    {
        self.since = self.since.and(passage);
    }
}
