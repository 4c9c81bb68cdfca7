//! Events: which agent takes how many messages from whom.

use dcop_base::{Sequence, VarId};

/// The next `count` messages of one sender.
#[derive(Clone, Copy, Debug, PartialEq, Eq)]
pub struct Take {
    /// The sender.
    pub from: VarId,
    /// The number of its messages that are taken.
    pub count: u32,
}

/// What one activation takes, in ascending order of the senders.
pub type TakeList = Sequence<Take>;

/// One activation of one agent.
#[derive(Clone, Debug, PartialEq, Eq, Drop)]
pub struct Event {
    /// The agent that takes messages.
    pub agent: VarId,
    /// What it takes.
    pub takes: TakeList,
}

/// Events in the order in which they happened.
pub type EventList = Sequence<Event>;

/// One activation in an agent's own journal.
#[derive(Clone, Debug, PartialEq, Eq, Drop)]
pub struct Entry {
    /// The activation's stamp. It is above those of the agent's earlier entries and of all that the
    /// activation took.
    pub stamp: u64,
    /// What was taken.
    pub takes: TakeList,
}

/// All activations of one agent, in order.
pub type Journal = Sequence<Entry>;

/// One journal for each agent.
pub type JournalList = Sequence<Journal>;

/// Why an event is not lawful. If several reasons apply, the first one counts.
#[derive(Clone, Copy, Debug, PartialEq, Eq)]
pub enum EventFault {
    /// There is no agent, or no sender, with this number.
    Nobody,
    /// The agent has ended.
    Ended,
    /// There is no take, or a take of no messages.
    Nothing,
    /// The senders are not strictly ascending.
    Order,
    /// More messages were asked of a sender than it has sent and the agent has not taken.
    TooMany {
        /// The sender.
        from: VarId,
        /// The number of messages that were asked.
        asked: u64,
        /// The number of messages that were there.
        there: u64,
    },
}
