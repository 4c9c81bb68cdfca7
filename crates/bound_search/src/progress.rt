//! How far a search has come.

/// How far a search has come. Estimates are scaled costs.
#[derive(Clone, Copy, Debug, PartialEq, Eq)]
pub(crate) struct Progress {
    /// The cost that a better assignment must be below.
    pub(crate) best: Option<u64>,
    /// Whether an assignment was found.
    pub(crate) found: bool,
    /// The number of nodes that were visited in all.
    pub(crate) nodes: u64,
    /// The least estimate of what was passed over, left open or found; `u64::MAX` if there is none.
    pub(crate) lower: u64,
    /// Whether the budget was reached.
    pub(crate) spent: bool,
    /// The number below which an estimate is not passed over.
    pub(crate) room: u64,
}
