//! The program `dcop_serve`: it solves problems for clients over sockets on 127.0.0.1, and prints
//! how their sessions ended.
//!
//! [`serve_all`] does all of its work, with a [`SolveMaker`] for each session. It ends with the
//! code of the status. If the system refuses to give it its arguments, it prints nothing and ends
//! with code 12. It is a crate of its own, since only a program makes the sources and sinks of the
//! operating system.
#![tactic(auto)]

use dcop_edge::{OpenGate, StdSink};
use serve_clients::StdListener;
use serve_replies::SolveMaker;
use serve_top::serve_all;
use std::process::ExitCode;
use std::rt::Env;
use std::{env, io};

/// The exit code if the system refuses to give the arguments; no status has it.
const REFUSED_ARGUMENTS: u8 = 12;

fn main(rt: HostRuntime) -> ExitCode {
    let Ok(words) = words_of(&rt) else {
        return ExitCode::from(REFUSED_ARGUMENTS);
    };
    let mut listener = StdListener::new(&rt);
    let mut sink = StdSink::new(rt.stdout());
    let status = serve_all::<_, _, _, SolveMaker, _>(
        &rt,
        rt.alloc(),
        &words,
        &mut listener,
        &mut sink,
        &OpenGate,
    );
    ExitCode::from(status.code())
}

/// The arguments of the program, without its own name.
fn words_of<R: Env + AllocGlobal>(rt: &R) -> io::Result<Vec<String>> {
    let mut arguments = env::args(rt)?;
    arguments.next();
    Ok(arguments.collect(rt.alloc())?)
}
