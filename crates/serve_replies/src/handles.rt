//! The handles of a run in one node.

use std::alloc::{Alloc, Global};
use std::io;
use std::net::{Net, SocketAddr, TcpListener, TcpStream};
use std::random::RandomSource;
use std::sync::Wait;
use std::thread::Threads;
use std::time::{Clock, Duration};

/// The threads of a runtime, and none of its other handles. Agents in one node dial nobody and do
/// not ask for the time. Each call of the other handles fails with
/// [`Unsupported`](io::ErrorKind::Unsupported), except `sleep`, which returns at once.
#[derive(Drop)]
pub(crate) struct ThreadsAlone<'a, R>(pub(crate) &'a R, pub(crate) Global);

impl<'a, R: Threads> Threads for ThreadsAlone<'a, R> {}

impl<'a, R: Wait> Wait for ThreadsAlone<'a, R> {}

impl<'a, R> Clock for ThreadsAlone<'a, R> {
    fn monotonic(&self) -> io::Result<Duration> {
        Err(io::Error::from(io::ErrorKind::Unsupported))
    }

    fn since_1970(&self) -> io::Result<Duration> {
        Err(io::Error::from(io::ErrorKind::Unsupported))
    }

    fn sleep(&self, _duration: Duration) {}
}

impl<'a, R> RandomSource for ThreadsAlone<'a, R> {
    fn fill_bytes(&self, _buf: &mut [u8]) -> io::Result<()> {
        Err(io::Error::from(io::ErrorKind::Unsupported))
    }
}

impl<'a, R> Alloc for ThreadsAlone<'a, R> {
    type A = Global;

    fn alloc(&self) -> Global {
        self.1
    }
}

impl<'a, R> Net for ThreadsAlone<'a, R> {
    type Stream = TcpStream;

    type Listener = TcpListener;

    fn bind(&self, _address: SocketAddr) -> io::Result<TcpListener> {
        Err(io::Error::from(io::ErrorKind::Unsupported))
    }

    fn connect(&self, _address: SocketAddr) -> io::Result<TcpStream> {
        Err(io::Error::from(io::ErrorKind::Unsupported))
    }
}
