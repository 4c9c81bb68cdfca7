//! What each top call does with its source and its sink: an input is read as a problem, and an
//! answer is shown.
//!
//! It reads the source to its end ([`read_all`]), reads the text as a problem or refuses it
//! ([`read_whole`]), and shows an answer whole, with a status ([`show`]).
//!
//! An input may be in either format: a problem text or a WCSP text. [`read_input`] reads a whole
//! input as one problem. [`read_front`] reads the problem that an input begins with; a report may
//! follow it. Both are exact: the file is the one that the text declares, and a refusal is that of
//! the text's first fault.
#![tactic(auto)]

mod after_end;
mod fault;
mod front;
mod further;
mod input;
mod law;
mod reading;
mod refusing;
mod showing;
mod status;
mod whole;
mod writing;

pub use fault::{InputFault, wcsp_answer};
pub use front::{lines_in, read_front};
pub use input::{ReadInput, read_input};
pub use law::wcsp_files_have_values;
pub use reading::{MAX_INPUT, ReadEnd, read_all};
pub use refusing::{fault_answer, words_answer};
pub use showing::show;
pub use status::Status;
pub use whole::read_whole;
pub use writing::write_all;
