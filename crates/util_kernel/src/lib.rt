//! Kernels over lists of amounts, which work on four or eight amounts at a time.
//!
//! At every length each kernel gives exactly what a plain loop over the elements gives:
//! [`add_lanes`] their sums, [`least_lanes`] the lesser of each two, [`add_one_lanes`] the sums
//! with one amount. They allocate nothing. Contracts say nothing of their speed.
#![tactic(auto)]

mod add;
mod add_one;
mod cap;
mod least;

pub use add::add_lanes;
pub use add_one::add_one_lanes;
pub use least::least_lanes;
