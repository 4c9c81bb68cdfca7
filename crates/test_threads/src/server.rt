//! The rows of the server: clients in memory, and one over a socket, with the maker of the server's
//! program.

mod serving;
mod session;
mod socket;

use crate::host::Host;
use crate::pair::TWICE;
use crate::solving::Answered;
use serving::{answer_to, answer_to_clients};
use session::{Ended, session_on};
use socket::{AnsweredOver, answer_over_socket};
use std::io;
use std::net::{Net, TcpListener, TcpStream};
use std::sync::Wait;
use std::thread::Threads;

/// Prints the rows.
pub(crate) fn print_rows<R>(rt: &R) -> io::Result<()>
where
    R: Host + Net<Listener = TcpListener, Stream = TcpStream> + Print,
{
    print_session(rt, "serve-pair-twice", TWICE)?;
    print_session(rt, "serve-cut-frame", b"\x00\x00\x00\x03ab")?;
    print_refused(rt, "80 1 1 1")?;
    print_refused(rt, "2000 1 1")?;
    print_two(rt)?;
    print_three(rt)?;
    print_few(rt)?;
    print_over_socket(rt, "serve-over-socket", false)?;
    print_over_socket(rt, "serve-silent", true)
}

// Prints the outcome of one session on these bytes.
fn print_session<R>(rt: &R, row: &str, bytes: &[u8]) -> io::Result<()>
where
    R: Print + Threads + Wait + AllocGlobal + Sync,
{
    let Some(
        Ended {
            end,
            served,
            looks,
            calls,
            replies,
        },
    ) = session_on(rt, bytes)
    else {
        return print_otherwise(rt, row);
    };
    println!(rt; "{row}: {end} {served}, looks {looks}, calls {calls}, replies {replies}")
}

// Prints the outcome of words that are refused.
fn print_refused<R>(rt: &R, words: &str) -> io::Result<()>
where
    R: Print + Threads + Wait + AllocGlobal + Sync,
{
    match answer_to(rt, words) {
        Some(answered) => print_refusal(rt, "serve-refused-words", answered),
        None => print_otherwise(rt, "serve-refused-words"),
    }
}

// Prints the outcome of two clients.
fn print_two<R>(rt: &R) -> io::Result<()>
where
    R: Print + Threads + Wait + AllocGlobal + Sync,
{
    let Some(served) = answer_to_clients(rt, "2000 2 4 2", 2) else {
        return print_otherwise(rt, "serve-all-two");
    };
    let [first, second] = served.replies.as_slice() else {
        return print_otherwise(rt, "serve-all-two");
    };
    let missed = served.missed;
    println!(rt; "serve-all-two: sessions that saw no other: {missed}")?;
    println!(rt; "serve-all-two: replies to each: {first} {second}")?;
    print_answer(rt, "serve-all-two", served.answered)
}

// Prints the outcome of three clients and two workers. The second session begins before the first
// one ends, since they wait for each other.
fn print_three<R>(rt: &R) -> io::Result<()>
where
    R: Print + Threads + Wait + AllocGlobal + Sync,
{
    let Some(served) = answer_to_clients(rt, "2000 3 4 2", 3) else {
        return print_otherwise(rt, "serve-three");
    };
    let (missed, with_reply) = (served.missed, served.connections_with(1));
    println!(rt;
        "serve-three: sessions that saw no other: {missed}, clients with a reply: {with_reply}"
    )?;
    print_answer(rt, "serve-three", served.answered)
}

// Prints the outcome when two clients connect and three are awaited.
fn print_few<R>(rt: &R) -> io::Result<()>
where
    R: Print + Threads + Wait + AllocGlobal + Sync,
{
    let Some(served) = answer_to_clients(rt, "2000 3 4 2", 2) else {
        return print_otherwise(rt, "serve-few");
    };
    let unserved = served.connections_with(0);
    println!(rt; "serve-few: connections given back unserved: {unserved}")?;
    print_refusal(rt, "serve-few", served.answered)
}

// Prints the outcome of a client over a socket, which may fall silent.
fn print_over_socket<R>(rt: &R, row: &str, is_silent: bool) -> io::Result<()>
where
    R: Host + Net<Listener = TcpListener, Stream = TcpStream> + Print,
{
    let Some(AnsweredOver { answered, replies }) = answer_over_socket(rt, is_silent) else {
        return print_otherwise(rt, row);
    };
    println!(rt; "{row}: replies to the client: {replies}")?;
    print_answer(rt, row, answered)
}

// Prints an answer of several lines.
fn print_answer<R: Print + AllocGlobal>(rt: &R, row: &str, answered: Answered) -> io::Result<()> {
    let Answered { code, text } = answered;
    print!(rt; "{row}, exit {code}:\n{text}")
}

// Prints an answer of one line.
fn print_refusal<R: Print + AllocGlobal>(rt: &R, row: &str, answered: Answered) -> io::Result<()> {
    let Answered { code, text } = answered;
    print!(rt; "{row}, exit {code}: {text}")
}

// Prints that a row did not go as it says.
fn print_otherwise<R: Print + AllocGlobal>(rt: &R, row: &str) -> io::Result<()> {
    println!(rt; "{row}: otherwise")
}
