//! How a run of agents ended.

/// How a run of agents under a budget of deliveries ended. Each variant has the deliveries: the
/// number of messages that were taken.
#[derive(Clone, Copy, Debug, PartialEq, Eq)]
pub enum RunEnd {
    /// Every agent has ended.
    AllEnded { deliveries: u64 },
    /// An agent has not ended, and the deliveries are at least the budget.
    Spent { deliveries: u64 },
    /// An agent has not ended, the deliveries are below the budget, and no message is pending.
    Still { deliveries: u64 },
}
