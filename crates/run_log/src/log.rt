//! Logs and their events.

use dcop_base::{Sequence, VarId};
use protocol_steps::TakeList;

/// One activation of one agent, with its stamp.
#[derive(Clone, Debug, PartialEq, Eq, Drop)]
pub struct LogEvent {
    /// The agent that was activated.
    pub agent: VarId,
    /// The activation's stamp: 1 plus the greatest of the agent's last stamp and the stamps of all
    /// messages taken.
    pub stamp: u64,
    /// How many messages were taken from which senders.
    pub takes: TakeList,
}

/// The events of a run, by stamp and then agent.
pub type Log = Sequence<LogEvent>;
