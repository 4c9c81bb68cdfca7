//! The real listener, over std's sockets.

ghost use Rattle.std.specs.Prelude.{◌≡◌, ◌≤◌, None};
ghost use Rattle.dcop_edge.specs.Faults.{Rose};

use crate::listen_fault::ListenFault;
use crate::listener::Listener;
use dcop_edge::{Failed, StdSink, StdSource};
use std::io;
use std::io::{Error, ErrorKind};
use std::net::{Net, TcpListener, TcpStream};
use std::time::Duration;

/// For how many seconds a read waits for a first byte, and a write for room for one byte, before it
/// fails.
pub const MAX_SILENCE: u64 = 30;

/// Listens on 127.0.0.1. No clause says anything about its connections.
///
/// A call that the system refuses is a fault, also if memory or descriptors run out. A connection
/// that its client gave up before it was accepted is skipped, and the next one is given. On a
/// connection, a read that brings nothing for the time limit is a fault of its source, and a write
/// that takes nothing for that time is a fault of its sink.
#[derive(Drop)]
pub struct StdListener<'a, R> {
    net: &'a R,
    silence: u64,
    socket: Option<TcpListener>,
    lent: u64,
    faults: u64,
}

impl<'a, R: Net<Listener = TcpListener, Stream = TcpStream>> StdListener<'a, R> {
    /// A listener that is not open yet, whose connections wait for [`MAX_SILENCE`] seconds. It
    /// takes no memory.
    pub fn new(net: &'a R) -> Self {
        StdListener::with_silence(net, MAX_SILENCE)
    }

    /// A listener that is not open yet, whose connections wait for this many seconds, and at least
    /// one. It takes no memory.
    pub fn with_silence(net: &'a R, seconds: u64) -> Self {
        StdListener {
            net,
            silence: seconds,
            socket: None,
            lent: 0,
            faults: 0,
        }
    }

    // Counts one more fault.
    fn fault(&mut self)
        ensures rose { (self.old.faults ≤ self.new.faults) × Rose self.old.faults self.new.faults }
        ensures lent { self.new.lent ≡ self.old.lent }
    {
        self.faults = self.faults.saturating_add(1);
    }
}

impl<'a, R: Net<Listener = TcpListener, Stream = TcpStream>> Listener for StdListener<'a, R> {
    type S = StdSource<TcpStream>;

    type K = StdSink<TcpStream>;

    ghost faults = { λ l. l.faults };

    ghost waiting = { λ _. None };

    ghost closed = { λ _. None };

    ghost lent = { λ l. l.lent };

    fn open(&mut self, port: u16) -> Result<(), Failed> {
        match TcpListener::bind(self.net, ("127.0.0.1", port)) {
            Ok(socket) => {
                self.socket = Some(socket);
                Ok(())
            }
            Err(_) => {
                self.fault();
                Err(Failed)
            }
        }
    }

    fn accept(&mut self) -> Result<(Self::S, Self::K), ListenFault> {
        if self.lent < u64::MAX {
            if let Some((source, sink)) = accepted(&self.socket, self.silence) {
                self.lent += 1;
                return Ok((StdSource::new(source), StdSink::new(sink)));
            }
        }
        self.fault();
        Err(ListenFault::Failed)
    }

    fn close(&mut self, source: Self::S, sink: Self::K) {
        drop(source);
        drop(sink);
        self.lent -= 1;
    }
}

// The next connection that its client did not give up, as two handles; `None` if the system refuses
// it.
fn accepted(socket: &Option<TcpListener>, silence: u64) -> Option<(TcpStream, TcpStream)> {
    let socket = socket.as_ref()?;
    for _ in 0..u64::MAX {
        match both_handles(socket, silence) {
            Ok(handles) => return Some(handles),
            Err(error) => {
                if !is_given_up(&error) {
                    return None;
                }
            }
        }
    }
    None
}

// The next connection, as two handles. What is sent leaves at once, and neither handle waits for
// more than this many seconds.
fn both_handles(socket: &TcpListener, silence: u64) -> io::Result<(TcpStream, TcpStream)> {
    let (stream, _address) = socket.accept()?;
    stream.set_nodelay(true)?;
    stream.set_read_timeout(Some(Duration::from_secs(silence)))?;
    stream.set_write_timeout(Some(Duration::from_secs(silence)))?;
    let other = stream.try_clone()?;
    Ok((stream, other))
}

// Whether this is the fault of a connection that its client gave up before it was accepted.
fn is_given_up(error: &Error) -> bool {
    error.kind() == ErrorKind::ConnectionAborted || error.kind() == ErrorKind::ConnectionReset
}
