//! The network of agents as a state machine that one thread runs, one event after another.
//!
//! [`replay`] runs a list of events and refuses the first one that is not lawful. Its result is a
//! [`CoreState`]: the network state at the end of that run. To do more at each event, begin with
//! [`CoreState::start`] and play each event by [`CoreState::happen`]. To choose the events, ask
//! [`CoreState::next_busy`] for an agent that may take something and [`CoreState::list_takes`] for
//! what it takes, and play the event by [`CoreState::follow`]. To show a run, use [`first_parcels`]
//! and [`CoreState::happen_telling`], which report what each agent took and sent. [`outcome_of`]
//! turns the last state into the outcome of the run. What agents were sent is in inboxes of
//! `letter_queues`.
#![tactic(auto)]

mod agent;
mod deliver;
mod exchange;
mod lawful;
mod outcome;
mod replaying;
mod seat;
mod start;
mod state;

pub use exchange::Exchange;
pub use outcome::outcome_of;
pub use replaying::{ReplayFault, replay};
pub use start::{Start, first_parcels};
pub use state::CoreState;
