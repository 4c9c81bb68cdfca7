//! Operations on one cost table: the number of cells for given sizes, places of cells, and slices.
//!
//! A slice of a table at a value of one of its variables is the table without the variable, with
//! the cells at that value. A slice of a problem gives each of its cut variables one value.
//! Contracts describe a table by its cells, as a function of the values of its scope's variables,
//! in scope order.
#![tactic(auto)]

mod cut;
mod place;
mod slicing;

pub use cut::slice;
pub use place::{cells_of, place_at, place_in};
pub use slicing::{fix, scope_without, sizes_without};
