//! The frame of a program that reads one text and writes one: words that are pairs of an option and
//! its value, an input that is read whole if the words are accepted, and a reply that is shown with
//! its status.
//!
//! A program gives its options and what it replies to a whole input. [`read_settings`] reads the
//! words, [`question_of`] the input, and [`show_reply`] shows the reply. Words, inputs, faults and
//! statuses are those of `dcop`. What such a program promises stands in `specs/Working.antt`, and
//! what makes up one in `specs/Program.antt`.
#![tactic(auto)]

mod environment;
mod question;
mod reply;
mod setting;
mod words;

pub use answer_io::Status;
pub use environment::{REFUSED_ARGUMENTS, arguments};
pub use question::{Question, question_of};
pub use reply::{Reply, show_reply};
pub use setting::{OptionName, OptionValue, Setting, Takes, format_given, number_given};
pub use words::read_settings;
