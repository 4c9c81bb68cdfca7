//! The program `dcop_order`: it reads a problem from standard input and writes it to standard
//! output, in an order that makes its depth-first tree narrower, or as it is.
//!
//! [`order`] does all of its work. It ends with the code of the status. If the system refuses to
//! give it its arguments, it prints nothing and ends with code 12. It is a crate of its own, since
//! only a program makes the sources and sinks of the operating system.
#![tactic(auto)]

use dcop_edge::{StdSink, StdSource};
use order_top::order;
use program_frame::{REFUSED_ARGUMENTS, arguments};
use std::process::ExitCode;

fn main(rt: HostRuntime) -> ExitCode {
    let Ok(words) = arguments(&rt) else {
        return ExitCode::from(REFUSED_ARGUMENTS);
    };
    let mut source = StdSource::new(rt.stdin());
    let mut sink = StdSink::new(rt.stdout());
    let status = order(rt.alloc(), &words, &mut source, &mut sink);
    ExitCode::from(status.code())
}
