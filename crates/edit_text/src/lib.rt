//! The lines of an edit session.
//!
//! [`read_edit_line`] accepts exactly the lines `set T K C`, `fill T : CELLS`, `answer` and `end`.
//! For any other line it returns the kind of the line's fault.
//!
//! It builds on `problem_text` for words and on `dcop_base` for numbers.
#![tactic(auto)]

mod kind;
mod line;

pub use kind::EditKind;
pub use line::{EditLine, read_edit_line};
