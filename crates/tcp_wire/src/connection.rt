//! A new connection, with both ends in this process.

use std::alloc::AllocGlobal;
use std::io;
use std::io::{Error, ErrorKind};
use std::net::{Net, SocketAddr};
use std::random::RandomSource;
use std::sync::Wait;
use std::time::{Clock, Duration, Instant};
use tokio::net::{TcpListener, TcpStream};
use tokio::runtime::LocalRuntime;

/// After how many seconds a connection that has not been made is refused.
const MAX_OPENING: u64 = 30;

/// The most connections of others that are closed while the dialled one is awaited. Connections are
/// accepted in the order in which they were made, and by default Linux lets 4,096 wait.
const MAX_STRANGERS: u32 = 65_536;

/// The two ends of a new connection on 127.0.0.1, at a port that the system chooses: the end that
/// dialled, and the end that was accepted from its address. Any other connection to that port is
/// closed. It waits for at most [`MAX_OPENING`] seconds, and not at all once the dial has failed.
pub(crate) fn connect<R>(rt: &R, runtime: &mut LocalRuntime) -> io::Result<(TcpStream, TcpStream)>
where
    R: Wait + Clock + RandomSource + Net + AllocGlobal,
{
    let here = SocketAddr::from(([127, 0, 0, 1], 0));
    let mut listener = TcpListener::bind(rt, here, runtime.handle().reactor())?;
    let end = end_of_opening(rt)?;
    let first = dial(rt, runtime, listener.local_addr()?, end)?;
    let second = accept_from(rt, runtime, &mut listener, first.local_addr()?, end)?;
    first.set_nodelay(true)?;
    second.set_nodelay(true)?;
    Ok((first, second))
}

// The time at which a connection that is begun now is refused.
fn end_of_opening<R: Clock>(rt: &R) -> io::Result<Instant> {
    match Instant::now(rt)?.checked_add(Duration::from_secs(MAX_OPENING)) {
        Some(end) => Ok(end),
        None => Err(Error::from(ErrorKind::TimedOut)),
    }
}

// A connection to this address, accepted or not.
fn dial<R>(
    rt: &R,
    runtime: &mut LocalRuntime,
    to: SocketAddr,
    end: Instant,
) -> io::Result<TcpStream>
where
    R: Wait + Clock + RandomSource + Net + AllocGlobal,
{
    let dialled = TcpStream::connect(rt, to, runtime.handle().reactor());
    let dialled = runtime.handle().time().timeout_at(end, dialled)?;
    runtime.block_on(rt, dialled)??
}

// The connection that was dialled from this address. Those that come before it are closed.
fn accept_from<R>(
    rt: &R,
    runtime: &mut LocalRuntime,
    listener: &mut TcpListener,
    dialled: SocketAddr,
    end: Instant,
) -> io::Result<TcpStream>
where
    R: Wait + Clock + RandomSource + AllocGlobal,
{
    for _ in 0..MAX_STRANGERS {
        let next = runtime.handle().time().timeout_at(end, listener.accept())?;
        match runtime.block_on(rt, next)?? {
            Ok((stream, address)) => {
                if address == dialled {
                    return Ok(stream);
                }
            }
            Err(refused) => {
                if !is_given_up(&refused) {
                    return Err(refused);
                }
            }
        }
    }
    Err(Error::from(ErrorKind::ConnectionRefused))
}

// Whether the connection was given up before it was accepted.
fn is_given_up(refused: &Error) -> bool {
    refused.kind() == ErrorKind::ConnectionAborted || refused.kind() == ErrorKind::ConnectionReset
}
