//! A law of the programs `dcop` and `dcop_trace`: what the one prints, the other traces.
//!
//! `dcop_trace` accepts the text of a problem followed by the report, with the log of a run, that
//! `dcop` prints for it. By the clause `complete` of `trace_top::trace` a trace of that run is then
//! written, unless a call fails or memory runs out. The law is about definitions alone. It is the
//! contract of a call that does nothing: to use the law, call it. It is a crate of its own since
//! neither program stands on the other.
#![tactic(auto)]

mod law;

pub use law::printed_reports_are_traced;
