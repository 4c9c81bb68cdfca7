//! Depth-first branch and bound (Kask and Dechter, A general scheme for automatic generation of
//! search heuristics from specification dependencies, Artificial Intelligence 129, 2001) on the
//! bounds of `bucket_bounds`.
#![tactic(auto)]

mod descent;
mod known;
mod progress;
mod room;
mod row;
mod rules;
mod searching;

pub use known::Known;
pub use searching::{Ended, Limits, search};
