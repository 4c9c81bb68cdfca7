//! The rules of a search.

/// The rules of a search.
#[derive(Clone, Copy, Debug, PartialEq, Eq)]
pub(crate) struct Rules {
    /// The factor by which estimates are scaled.
    pub(crate) scale: u64,
    /// By how much the cost of the best assignment may miss the optimum.
    pub(crate) error: u64,
    /// The number of nodes that may be visited once something is known.
    pub(crate) budget: u64,
}
