//! The costs of a problem, all multiplied by one scale, with parts of them moved between tables
//! that share a variable.
//!
//! A search needs lower bounds on what tables cost together. The least cells of the tables sum to
//! such a bound, which is often poor. [`shared_costs`] multiplies all costs by a scale and moves
//! costs between tables that name one variable, so that the least cells can sum to more. At each
//! assignment the tables still sum to the scaled cost (min-sum diffusion; Werner, A linear
//! programming approach to max-sum problem: a review, IEEE Transactions on Pattern Analysis and
//! Machine Intelligence 29, 2007). [`share`] is one step of this, for one variable.
#![tactic(auto)]

mod depths;
mod rounds;
mod runs;
mod scale;
mod shared;
mod sharing;
mod table;

pub use shared::{SharedCosts, TableLists, shared_costs};
pub use sharing::share;
pub use table::SharedTable;
