//! What each agent was sent and has not taken, and which agents may take something.
//!
//! An [`Inbox`] has, for each sender, the letters that wait, and the last one that was taken. It
//! hands out the letters that an event takes, and says which takes ask for more than waits.
//! [`form_of`] finds the other faults of an event's takes. [`Arrivals`] tells which of many agents
//! may take something, so that the others need not be looked at. Nothing here runs an agent.
#![tactic(auto)]

mod arrivals;
mod form;
mod inbox;
mod letters;
mod link;
mod place;
mod queue;

pub use arrivals::Arrivals;
pub use form::form_of;
pub use inbox::Inbox;
