//! The answer to words and a source of bytes.
//!
//! [`answer_of`] reads the words as a command. It reads the source if the command needs an input,
//! and hands the task to its method. Its clauses say which answer belongs to which words and input,
//! that a report is right, and what an answer says about the links between nodes. The laws
//! compare the answers to several commands: all ways to the answer of DPOP give the same one.
#![tactic(auto)]

mod answering;
mod cutting;
mod drilling;
mod editing;
mod law;
mod linking;
mod methods;
mod replaying;
mod task;

pub use answering::answer_of;
pub use drilling::Drill;
pub use law::{
    auto_answers_are_those_of_dpop, dpop_answers_are_one, drill_answers_are_one,
    edit_answers_are_those_of_dpop, fit_answers_are_one, solved_answers_are_one,
};
pub use task::{FileTask, Task};
