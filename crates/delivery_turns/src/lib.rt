//! Runs of agents that one thread plays, turn by turn.
//!
//! [`play_out`] plays the agents of a problem in rounds of up to 32 turns, keeps no events, and
//! returns the outcome. [`play_out_logged`] plays them by the same loop and returns the log too, if
//! one is requested. [`play`] plays rounds of one turn each until all agents have ended, a
//! budget of deliveries is spent, or a round has no event. It returns the events and the network
//! state at their end.
#![tactic(auto)]

mod sprint;
mod turn;

pub use sprint::{PlayedOut, play_out, play_out_logged, runs_go_one_way, turns_agree};
pub use turn::{Played, play};
