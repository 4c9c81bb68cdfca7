//! The answer to the lines of an edit session.
//!
//! [`edit_answer`] opens a session on a file and reads its lines one after the other. The answer is
//! all optima that were requested, or only the first fault.
//!
//! It builds on `edit_text` for the lines, on `edit_session` for sessions, and on `solve_report`
//! for answers.
#![tactic(auto)]

mod answering;
mod playing;
mod running;
mod stop;

pub use answering::edit_answer;
