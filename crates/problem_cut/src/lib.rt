//! Cuts of a problem: which variables are cut, the turns of a cut (one for each list of values of
//! these variables), and the slice of each turn.
//!
//! [`cut_set`] chooses the cut variables by a rule, so that no joined table has more cells than a
//! limit. A turn is a list of values, one for each cut variable. [`turn_at`] gives the turn with a
//! number, in lexicographic order, and [`slice_at`] gives the problem that is left in a turn.
//! [`sent_in_turn`] counts the cells that all agents send in one turn.
//!
//! It builds on `run_laws` for the rule of the cut set, and on `cost_table` for slices of tables.
#![tactic(auto)]

mod rule;
mod total;
mod turn;
mod width;

pub use rule::cut_set;
pub use total::sent_in_turn;
pub use turn::{slice_at, turn_at};
