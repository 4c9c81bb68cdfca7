//! The answers of the commands, and the exact text of each answer.
//!
//! An [`Answer`] holds plain values, so this crate does not depend on the crates that compute them.
//! [`text_of`] is the only writer of answers.
//!
//! It builds on `problem_text` and `certificate_text` for the texts of problem files and reports.
#![tactic(auto)]

mod answer;
mod edits;
mod links;
mod refusal;
mod replay;
mod summary;
mod tree;
mod upgrade;
mod verdict;

pub use answer::{Answer, text_of};
pub use replay::{AgentRow, AgentRowList, write_bound, write_standing};
pub use summary::Summary;
pub use tree::{NodeRow, NodeRowList};
