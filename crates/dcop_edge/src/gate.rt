//! A gate that every visit of an agent passes, so that a test can hold agents back or count them.

use dcop_base::VarId;

/// A gate at the start of the visits of agents. Its call always returns.
pub trait Gate: Sync {
    /// Called at the start of each visit of this agent.
    fn pass(&self, agent: VarId);
}

/// The gate that does nothing.
#[derive(Clone, Copy, Debug)]
pub struct OpenGate;

impl Gate for OpenGate {
    fn pass(&self, _agent: VarId) {}
}
