//! Projections of cost tables: the least cell over one variable, and the value at which it is
//! reached.
//!
//! The cells of a table are in blocks, one for each choice of values of the variables before the
//! projected one. A block has a run of cells for each value of that variable. The projection keeps
//! one run for each block: the cell-wise least of its runs. Contracts say nothing of speed.
#![tactic(auto)]

mod leasts;
mod picking;
mod projecting;

pub use picking::{lowest_of, pick};
pub use projecting::project;
