//! Check and replay: what is answered about a printed answer, the text of a report.
//!
//! [`check_answer`] reads a report on a file and checks its certificate. It trusts neither the
//! report nor its maker: the verdict yes means that the report holds with its certificate.
//!
//! [`replay_answer`] reads a report on a file and plays the first events of its log, as a run of
//! the ADOPT agents on the problem solved, on its depth-first tree. The answer is the state of each
//! agent after them, or the first event that is not lawful. Stamps are not checked. [`read_log`]
//! only reads the log.
//!
//! It builds on `report_reader` to read reports, on `certificate_check` to check them, on
//! `delivery_core` to play events, on `log_check` for the start of the run, and on `solve_report`
//! for answers.
#![tactic(auto)]

mod certificate_line;
mod checking;
mod enclosing;
mod events;
mod law;
mod reading;
mod replaying;
mod rows;

pub use checking::check_answer;
pub use enclosing::replayed_bounds_enclose;
pub use events::log_up_to;
pub use law::certificates_begin;
pub use reading::{LogRead, read_log};
pub use replaying::{fault_answer, replay_answer};
