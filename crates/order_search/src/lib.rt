//! The search for an order of a problem's variables that makes its depth-first tree narrow.
//!
//! [`narrow_order`] searches. Its clause says which order it finds: the best of the given order, of
//! the orders that rules build, and of `n` changes, each of the best so far. [`narrowed`] puts a
//! file into that order if this makes its tree narrower. `problem_order` says what an order is and
//! when a tree is narrower, and compares trees.
#![tactic(auto)]

mod changes;
mod graph;
mod law;
mod narrowing;
mod orders;
mod score;
mod search;
mod walk;

pub use law::searched_files_are_one;
pub use narrowing::narrowed;
pub use search::narrow_order;
