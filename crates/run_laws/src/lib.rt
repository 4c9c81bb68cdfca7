//! Laws on every run of the agents: what runs of tokens, of DPOP and of ADOPT do, and what a cut of
//! a problem answers.
//!
//! The laws are about definitions alone, without the code of any agent. Each is the contract of a
//! call that does nothing: code that needs the law calls it.
//!
//! In a run of token agents, the depth-first tree of a problem is found ([`token_runs`]). In a run
//! of DPOP agents, tables go up a tree and values come down ([`dpop_runs`]). In a run of ADOPT
//! agents, all bounds enclose optima ([`adopt_bounds_enclose`]), and [`adopt_ends`] says what holds
//! once all agents have ended.
//!
//! If an agent's joined table is too wide, variables above it are cut. Each list of values of the
//! cut variables is a turn, and the slice of the problem at these values is solved over the same
//! tree. A slice is a problem with the same graph and the same trees. The optimum is the least of
//! the slices' optima. The rule of the cut set gives exactly one list of variables. The answer of a
//! cut is optimal.
//!
//! It is a crate of its own since both the methods that run agents and the checks of their reports
//! use the laws.
#![tactic(auto)]

mod adopt;
mod cuts;
mod dpop;
mod ends;
mod tokens;

pub use adopt::{adopt_bounds_enclose, adopt_entries, adopt_pending, no_bounds_cross};
pub use cuts::{
    cut_answers_are_one, cut_answers_are_optimal, cut_certificates_show_optima, cut_sets_are_one,
    cut_sets_make_narrow, optima_are_least_of_slices, slices_are_one, slices_are_problems,
    slices_have_counted, slices_keep_trees, turns_are_in_order, turns_make_certificates,
    uncut_slices_are_whole,
};
pub use dpop::dpop_runs;
pub use ends::adopt_ends;
pub use tokens::token_runs;
