//! The stages of an agent.

/// The stage of an agent.
#[derive(Clone, Copy, Debug)]
pub(crate) enum Stage {
    /// The agent has not started.
    Waiting,
    /// It has started, and has not ended.
    Working,
    /// It has ended.
    Ended,
    /// Memory ran out.
    Failed,
}
