//! How a search of a problem goes: stages whose tables grow, and the report of what they found.
//!
//! [`search_report`] searches a file whose variables are in the order of the search. The stages
//! search the problem solved, in which costs stand for gains if the goal is max. The report is on
//! the file's own problem.
#![tactic(auto)]

mod asked;
mod report;
mod stages;
mod turning;

pub use asked::Asked;
pub use report::{Found, SearchEnding, SearchReport};
pub use stages::Outcome;
pub use turning::search_report;
