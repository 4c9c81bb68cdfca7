//! The top call of `dcop_search`. It takes words and a source of bytes, writes the report of a
//! search or a refusal to a sink, and returns a status.
//!
//! [`search`] reads a problem, puts its variables in an order in which bounds are small, shares its
//! costs among its tables, makes bounds, and searches by them, in stages whose tables grow. The
//! report is on the file as it was read.
#![tactic(auto)]

mod answering;
mod reporting;
mod top;
mod words;
mod writing;

pub use program_frame::Status;
pub use search_stages::{Asked, Found, SearchEnding, SearchReport};
pub use top::search;
