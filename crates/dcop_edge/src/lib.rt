//! The outside world as values: where bytes come from and where they go.
//!
//! A [`Source`] gives bytes and a [`Sink`] takes them. For proofs alone, each states what it holds,
//! if that is known, and counts its faults: a call returns [`Failed`] only if the count rose or is
//! at its limit. Code that reads and writes is therefore proved over any source and sink. There are
//! sources and sinks in memory that fail at chosen calls, and others that never fail. [`StdSource`]
//! and [`StdSink`] are the real ones. Contracts say nothing of their bytes, only how many each read
//! gave, whether the sink is finished, and their counts of faults.
#![tactic(auto)]

mod counts;
mod fault;
mod gate;
mod kept;
mod memory;
mod sink;
mod source;
mod standard;
mod steady;

pub use fault::{Failed, FailingCalls, ReadFault};
pub use gate::{Gate, OpenGate};
pub use memory::{MemorySink, MemorySource};
pub use sink::Sink;
pub use source::Source;
pub use standard::{StdSink, StdSource};
pub use steady::{SteadySink, SteadySource};
