//! The program `dcop`: it answers the words of its command line, from standard input to standard
//! output.
//!
//! [`solve`] does all of its work. Between the nodes of agents it dials sockets on 127.0.0.1. It
//! ends with the code of the status. If the system refuses to give it its arguments, it prints
//! nothing and ends with code 12. It is a crate of its own, since only a program makes the sources
//! and sinks of the operating system.
#![tactic(auto)]

use dcop_edge::{OpenGate, StdSink, StdSource};
use solve_top::solve;
use std::alloc::Global;
use std::process::ExitCode;
use std::rt::Env;
use std::{env, io};
use tcp_wire::TcpDialer;

/// The exit code if the system refuses to give the arguments; no status has it.
const REFUSED_ARGUMENTS: u8 = 12;

/// The most bytes of a block that the allocator keeps when it is given back.
const KEPT_BLOCK: usize = 4_194_304;

fn main(rt: HostRuntime) -> ExitCode {
    let Ok(words) = words_of(&rt) else {
        return ExitCode::from(REFUSED_ARGUMENTS);
    };
    keep_freed_memory(rt.alloc());
    let mut source = StdSource::new(rt.stdin());
    let mut sink = StdSink::new(rt.stdout());
    let mut dialer = TcpDialer::new();
    let status = solve(
        &rt,
        rt.alloc(),
        &words,
        &mut source,
        &mut sink,
        &OpenGate,
        &mut dialer,
    );
    ExitCode::from(status.code())
}

/// Makes the allocator keep freed memory for later requests: asks for a block of [`KEPT_BLOCK`]
/// bytes and gives it back.
///
/// The C library takes a large block from the system and returns it there, so each page of the next
/// one is new and must be cleared. After one block was given back, later blocks up to its size come
/// from freed memory (mallopt(3), at `M_MMAP_THRESHOLD`).
fn keep_freed_memory(alloc: Global) {
    let _ = Vec::<u8>::with_capacity(alloc, KEPT_BLOCK);
}

/// The arguments of the program, without its own name.
fn words_of<R: Env + AllocGlobal>(rt: &R) -> io::Result<Vec<String>> {
    let mut arguments = env::args(rt)?;
    arguments.next();
    Ok(arguments.collect(rt.alloc())?)
}
