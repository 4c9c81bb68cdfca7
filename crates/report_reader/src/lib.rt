//! Reading the text of reports.
//!
//! [`read_report`] accepts exactly the texts of reports with a certificate, line by line, or
//! returns the line and the kind of the first fault. The law [`written_reports_are_read`] says that
//! the text of a report that has a certificate and fits its file, which `write_report` of
//! `certificate_text` writes, is read as that report.
//!
//! It builds on `certificate_text` for reports, on `problem_text` for lines, names and faults, and
//! on `run_log` for the lines of events.
#![tactic(auto)]

mod certificate_line;
mod cut_line;
mod head;
mod head_line;
mod law;
mod lines;
mod reader;
mod turn_line;
mod turns;
mod util_line;
mod value_line;

pub use law::written_reports_are_read;
pub use reader::read_report;
