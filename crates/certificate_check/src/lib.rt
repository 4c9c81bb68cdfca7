//! Checking certificates: whether a report holds, and so how far its cost can be from the best sum.
//!
//! [`check`] trusts neither a report nor its maker. It uses only the file and the report. The
//! verdict is yes exactly when the report holds with its certificate; the cost is then worse than
//! the best sum of the file by at most the printed gap. Otherwise the verdict is the first
//! difference, in the order of [`Differs`](certificate_text::Differs). For tables the order is the
//! tree of the parents, the scopes, the cells, and then the numbers. A certificate of a cut is
//! checked turn by turn, each on its slice of the problem.
//!
//! It builds on `minimised_problem` for when a report holds, on `log_check` for certificates of
//! logs, and on `problem_cut` and `run_laws` for cuts.
#![tactic(auto)]

mod behind;
mod cells;
mod checking;
mod cutting;
mod numbers;
mod odometer;
mod parts;
mod scopes;
mod sums;
mod told;
mod tree;
mod turns;

pub use checking::check;
