//! Replaying a log, and keeping one while agents are played.
//!
//! [`replay_log`] plays the events one after another. Besides the network state it keeps the stamps
//! of the messages that wait. It returns the network state at the end, or the first event that is
//! not lawful, or otherwise the first stamp that is wrong (`specs/Replays.antt`).
//!
//! Whoever plays agents calls [`note`] after each event. From such notes [`log_of`] makes the log
//! of that run, with right stamps, by stamp and then agent (`specs/Notes.antt`).
//!
//! It builds on `delivery_core` to play events, and on `run_log` for logs and right stamps.
#![tactic(auto)]

mod fault;
mod notes;
mod queue;
mod replaying;
mod row;
mod stamps;
mod wrong;

pub use fault::{LogFault, WrongStamp};
pub use notes::{Notes, log_of, note, notes_if};
pub use replaying::replay_log;
