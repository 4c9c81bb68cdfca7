//! The arguments of a program.

use std::rt::Env;
use std::{env, io};

/// The exit code of a program if the system refuses to give it its arguments; no status has it.
pub const REFUSED_ARGUMENTS: u8 = 12;

/// The arguments of the program, without its own name.
///
/// # Errors
///
/// The error of the system if it refuses to give them, or if memory runs out.
pub fn arguments<R: Env + AllocGlobal>(rt: &R) -> io::Result<Vec<String>> {
    let mut arguments = env::args(rt)?;
    arguments.next();
    Ok(arguments.collect(rt.alloc())?)
}
