//! Checking reports with a log.
//!
//! [`check_log`] plays the log of a report as a run of the ADOPT agents on the problem solved, on
//! its depth-first tree. It says whether the report describes the end of that run, or gives the
//! first difference. It trusts neither the report nor its maker. [`start_for`] gives the start of
//! that run.
//!
//! It builds on `log_replay` to play the log, on `delivery_turns` to run the token agents, and on
//! `minimised_problem` for the tree that they find, the conditions and the laws.
#![tactic(auto)]

mod checking;
mod end;
mod numbers;

pub use checking::{check_log, start_for};
