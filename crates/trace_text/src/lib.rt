//! The text of a run of ADOPT, message by message.
//!
//! [`write_trace`] plays the events of a log. For each agent at its start, and for the agent of
//! each event, it writes what the agent took, the state it reached, what it knows about other
//! agents' values, and what it sent. The text is defined in `specs/Trace.antt`, and the words of
//! each line in `specs/Lines.antt`.
#![tactic(auto)]

mod lines;
mod tracing;
mod words;

pub use tracing::write_trace;
