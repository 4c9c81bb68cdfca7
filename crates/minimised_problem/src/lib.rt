//! What an answer is about: the problem with goal min that is solved for a file, its tree, its
//! certificates and its logs, and when a report holds.
//!
//! All methods look for an assignment of least cost. For goal max they solve the turned problem,
//! whose cheapest assignments are the most expensive ones of the file's problem. [`ProblemSolved`]
//! is the only place that makes this problem, for solvers and for checkers. Other crates run token
//! agents on it: [`tree_found`] says which depth-first tree follows from the
//! [`Outcome`](protocol_steps::Outcome) of their run.
//!
//! The definitions of this crate say what the best sum is, and when a report holds with its
//! certificate: tables, a cut or a log. [`utils_of`] lists the tables that DPOP agents have made,
//! in the preorder of a tree, each with its variable's parent and separator. A report of ADOPT with
//! the log of its run can be checked without trust in its maker: the log is played as a run of the
//! agents on the depth-first tree (`specs/LogHolds.antt`). `specs/Differences.antt` says what can
//! differ there, in the order in which it is reported. [`verdict_of`] gives the verdict on a report
//! from its first difference. The laws on logs are about definitions alone. Each is the contract of
//! a call that does nothing: code that needs the law calls it.
//!
//! It builds on `dcop_optimum` for the turned problem and the best sum, and on `run_laws` for runs
//! and for certificates of cuts. It builds on `run_log` for logs, and on `certificate_text` for
//! reports and verdicts.
#![tactic(auto)]

mod logs;
mod search;
mod solved;
mod utils;
mod verdict;

pub use logs::{differences_are_exact, logs_show, merged_logs_hold};
pub use search::{Found, search_deliveries, tree_found};
pub use solved::ProblemSolved;
pub use utils::{cells_of, utils_of};
pub use verdict::{gap_of, verdict_of};
