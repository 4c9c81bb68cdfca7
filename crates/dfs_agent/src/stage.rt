//! The stages of an agent in its search.

use dcop_base::VarId;
use pseudotree::Place;

/// The stage of an agent in its search.
#[derive(Debug, Drop)]
pub(crate) enum Stage {
    /// The agent has not started.
    Waiting,
    /// It has started, and no token has arrived yet.
    Closed,
    /// A token has arrived, and is with this child at present.
    Open { child: VarId },
    /// Its subtree has been searched.
    Ended { place: Place },
    /// Memory ran out.
    Failed,
}
