//! Logs: everything that the agents of a run did, as one list of events in the order of their
//! stamps.
//!
//! Each agent keeps its own journal. [`merge`] merges the journals of a run, by stamp and then
//! agent (`specs/Logs.antt`). The stamps of a log are right if each is 1 plus the greatest of its
//! agent's last stamp and the stamps of the messages taken (`specs/LogStamps.antt`). The law
//! [`merged_stamps_are_right`] says that the merged journals of a run of cells are a log of that
//! run with right stamps.
//!
//! The text of a log has one line for each event (`specs/LogText.antt`). [`write_log`] writes
//! exactly that text. [`read_log`] accepts exactly such lines, or returns the line and the kind of
//! the first fault (`specs/LogReading.antt`).
//!
//! It builds on `protocol_steps` and `worker_laws` for journals and runs of cells, and on
//! `problem_text` for names, lines and faults.
#![tactic(auto)]

mod event_line;
mod law;
mod log;
mod merging;
mod reader;
mod writer;

pub use event_line::{event_of_line, number_within};
pub use law::merged_stamps_are_right;
pub use log::{Log, LogEvent};
pub use merging::merge;
pub use reader::read_log;
pub use writer::{write_events, write_log};
