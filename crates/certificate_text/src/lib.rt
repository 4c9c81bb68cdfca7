//! Reports of solving, their certificates, and the text that states both.
//!
//! [`write_report`] writes exactly the text of a report; `read_report` of `report_reader` reads it.
//! With a certificate a reader can check, without trust in the solver, how far the report's cost
//! can be from the best cost.
//!
//! It builds on `problem_text` for problem files and names, and on `run_log` for logs.
#![tactic(auto)]

mod certificate;
mod report;
mod verdict;
mod writer;

pub use certificate::{Certificate, CutList, Turn, Util, UtilList, first_tables};
pub use report::{Ending, Method, Report};
pub use verdict::{Differs, Verdict};
pub use writer::{parent_word, write_number, write_report, write_values};
