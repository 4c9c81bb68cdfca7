//! Joins of cost tables: the cell-wise sum of tables, over all the variables that they name.
//!
//! A [`Joined`] table starts as a table of zeros over its variables. [`Joined::add`] adds a table
//! to it: each cell gains the table's cell at the same values. [`Joined::table`] returns the
//! result. This is the join of UTIL propagation in DPOP (Petcu, Faltings, IJCAI 2005).
#![tactic(auto)]

mod add;
mod alike;
mod joined;
mod row;
mod stride;
mod window;

pub use dcop_base::MAX_JOINED_CELLS;
pub use joined::{JoinFault, Joined};
