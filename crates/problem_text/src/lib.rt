//! Problem files: a problem with its names, and the text that states both.
//!
//! Every [`ProblemFile`] has one name for each variable, and value names that fit the domain sizes.
//! All names obey one rule ([`is_name`]). A file has one canonical text, and [`write_problem`]
//! writes exactly that text. [`read_problem`] accepts exactly the problem texts, line by line. It
//! returns the file that a text declares, or the line and the kind of the text's first fault.
//!
//! It builds on `dcop_base` for problems, tables, numbers and limits, and on `indexmap` and
//! `memchr`.
#![tactic(auto)]

mod canonical;
mod cell_words;
mod draft;
mod edited;
mod fault;
mod file;
mod header;
mod line;
mod line_end;
mod name;
mod name_word;
mod names;
mod number_words;
mod numbered;
mod plain_line;
mod reader;
mod scope_words;
mod short_numbers;
mod table_line;
mod variable;
mod word;
mod word_line;

pub use canonical::{write_cells, write_goal, write_problem, write_scope};
pub use dcop_base::MAX_NAME;
pub use edited::{Edited, EditedList};
pub use fault::{ReportFault, ReportKind, TextFault, TextKind};
pub use file::{Goal, LabelList, ProblemFile, ReadFile};
pub use line::{CR, HASH, LF, line_behind};
pub use line_end::LineEnd;
pub use name::is_name;
pub use name_word::name_of;
pub use names::{Labels, NameSet, Names};
pub use plain_line::{PlainLine, next_plain_line};
pub use reader::read_problem;
pub use scope_words::{past_colon, variable_of_word};
pub use word::{is_word, next_word};
pub use word_line::{WordLine, next_line};
