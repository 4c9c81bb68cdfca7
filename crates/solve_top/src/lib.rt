//! The top call of the solver: words and a source of bytes in, an answer into a sink, and a status.
//!
//! [`solve`] does all the work of the program `dcop`: it lets `solve_answers` find the answer, and
//! shows it. Its clauses say which answer belongs to which words and input, and that what a report
//! says of its file is right. They also say that the answer's whole text is written and the sink
//! finished, and when each fault may come.
#![tactic(auto)]

mod top;

pub use answer_io::{MAX_INPUT, Status};
pub use top::solve;
