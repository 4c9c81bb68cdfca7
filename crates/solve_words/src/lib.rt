//! Command words: the arguments of the program, read as a command.
//!
//! [`read_words`] returns the command with all of its defaults, or the position and the kind of the
//! first fault. The table of options exists twice, in the same form: `src/options.rt` for the code,
//! and `specs/Options.antt` with `specs/Standing.antt` for the proofs. The words of choices are in
//! `specs/Names.antt`, and their defaults in `specs/Values.antt`. `specs/Faults.antt` says which
//! fault is the first, and `specs/Command.antt` says what the answer to a list of words is.
//!
//! It builds on `dcop_base` for numbers and limits.
#![tactic(auto)]

mod command;
mod fault;
mod options;
mod reading;
mod settings;
mod verb;

pub use command::{Choice, Command, Format};
pub use fault::{WordFault, WordKind};
pub use reading::read_words;
