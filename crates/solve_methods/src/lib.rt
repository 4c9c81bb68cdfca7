//! The answer of each method on a file: plain search, the tree, DPOP, ADOPT, and auto, which is
//! DPOP if its tables fit and ADOPT otherwise; and the answer of `drill`.
//!
//! This crate runs plain search itself. The other methods are run by agents: this crate derives the
//! answer from the end of their run, an [`Outcome`](protocol_steps::Outcome) of the network,
//! whoever ran them. The clauses of each call say which [`Answer`](solve_report::Answer) it gives,
//! and that what a report says about the file is right. The law [`adopt_reports_hold`] says that a
//! report of ADOPT holds with the log of its run. The law [`adopt_reports_are_small`] says that its
//! numbers are small enough to be read again.
//!
//! It builds on `dcop_optimum` for plain search, on `run_laws` for what holds of the runs, on
//! `minimised_problem` for logs, and on `solve_report` for answers.
#![tactic(auto)]

mod adopt;
mod auto;
mod dpop;
mod drill;
mod law;
mod plain;
mod tables;
mod tree;

pub use adopt::{Asked, Logged, Reached, adopt_answer, reached_by};
pub use auto::{Settled, auto_answer};
pub use dpop::{Choice, Chosen, choice_deliveries, chosen_by, dpop_answer};
pub use drill::drill_answer;
pub use law::{adopt_reports_are_small, adopt_reports_hold};
pub use plain::plain_answer;
pub use tree::{node_rows_if, tree_answer};
