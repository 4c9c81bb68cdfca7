//! The bounds and the threshold of an agent.

/// The bounds and the threshold of an agent.
#[derive(Clone, Copy, Debug, PartialEq, Eq)]
pub struct Standing {
    /// The lower bound.
    pub lower: u64,
    /// The upper bound; `None` as long as there is none.
    pub upper: Option<u64>,
    /// The threshold.
    pub threshold: u64,
}
