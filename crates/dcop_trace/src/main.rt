//! The program `dcop_trace`: it reads a problem and a report with a log from standard input,
//! replays the run, and writes to standard output, event by event, what each agent took, the state
//! it reached and what it sent.
//!
//! [`trace`] does all of its work. It ends with the code of the status. If the system refuses to
//! give it its arguments, it prints nothing and ends with code 12. It is a crate of its own, since
//! only a program makes the sources and sinks of the operating system.
#![tactic(auto)]

use dcop_edge::{StdSink, StdSource};
use program_frame::{REFUSED_ARGUMENTS, arguments};
use std::process::ExitCode;
use trace_top::trace;

fn main(rt: HostRuntime) -> ExitCode {
    let Ok(words) = arguments(&rt) else {
        return ExitCode::from(REFUSED_ARGUMENTS);
    };
    let mut source = StdSource::new(rt.stdin());
    let mut sink = StdSink::new(rt.stdout());
    let status = trace(rt.alloc(), &words, &mut source, &mut sink);
    ExitCode::from(status.code())
}
