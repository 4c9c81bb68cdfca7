//! The answer of the method cut.
//!
//! [`cut_answer`] cuts variables of the problem solved for a file, so that no joined table on its
//! depth-first tree has more cells than a limit. It lets DPOP agents solve the problem turn by
//! turn. The answer is a report of the first turn of least cost, with a certificate if one is
//! requested, or what refuses the cut. The law [`allowed_cuts_are_solved`] says that the answer to
//! a cut that nothing refuses is a solved report.
//!
//! It builds on `cut_dpop` to run the cut, on `run_laws` for the laws about cuts, and on
//! `solve_report` for answers.
#![tactic(auto)]

mod answering;
mod cutting;
mod law;

pub use answering::cut_answer;
pub use law::allowed_cuts_are_solved;
