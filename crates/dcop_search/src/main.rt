//! The program `dcop_search` reads a problem from standard input, searches it for an assignment
//! with the best sum, and writes what it found, with bounds, to standard output.
//!
//! [`search`] does all the work. The program ends with the code of the status. If the system
//! refuses it its arguments, it ends with 12 and prints nothing. It is a crate of its own, since
//! only a program makes the sources and sinks of the operating system.
#![tactic(auto)]

use dcop_edge::{StdSink, StdSource};
use program_frame::{REFUSED_ARGUMENTS, arguments};
use search_top::search;
use std::process::ExitCode;

fn main(rt: HostRuntime) -> ExitCode {
    let Ok(words) = arguments(&rt) else {
        return ExitCode::from(REFUSED_ARGUMENTS);
    };
    let mut source = StdSource::new(rt.stdin());
    let mut sink = StdSink::new(rt.stdout());
    let status = search(rt.alloc(), &words, &mut source, &mut sink);
    ExitCode::from(status.code())
}
