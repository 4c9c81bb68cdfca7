//! Test problems: a problem file made from a seed.
//!
//! [`make_problem`] draws the tables of a problem from the stream of SplitMix64. The same arguments
//! give the same file on every machine: its clause says which file, word by word of the stream.
//!
//! It builds on `problem_text` for problem files, and on `rand_xoshiro` for the stream.
#![tactic(auto)]

mod draw;
mod make;

pub use make::make_problem;
