//! The top call of `dcop_trace`: words and a source of bytes in, the trace of a run or a refusal
//! into a sink, and a status.
//!
//! [`trace`] reads a problem and the report with a log after it, plays the log as `dcop replay`
//! does, and writes event by event what each agent took, the state it reached and what it sent. Its
//! clauses say which reply belongs to which words and input, that its whole text is written and the
//! sink finished, and when each fault may come. The law [`trace_answers_are_one`] says that the
//! same words and input have one reply.
#![tactic(auto)]

mod answering;
mod law;
mod top;
mod words;

pub use law::trace_answers_are_one;
pub use program_frame::Status;
pub use top::trace;
pub use words::Asked;
