//! The server's top call over a real socket, with a client in a thread of its own.

ghost use Rattle.std.specs.Prelude.{◌≡◌, ◌≤◌, IfSome};

use crate::host::Host;
use crate::pair::{ONCE, TWICE, replies_in};
use crate::server::serving::answered_by;
use crate::solving::Answered;
use dcop_edge::{Failed, OpenGate};
use serve_clients::{ListenFault, Listener, MAX_SILENCE, StdListener};
use serve_top::ServeStatus;
use std::io::{Read, Write};
use std::net::{Net, Shutdown, TcpListener, TcpStream};
use std::random::RandomSource;
use std::sync::atomic::{AtomicU64, Ordering};
use std::thread::yield_now;
use std::{io, thread};

/// The least port that is tried.
const FIRST_PORT: u16 = 1_024;

/// How many ports from the first on are tried: those below the ports that a system gives to
/// clients.
const PORTS: u16 = 31_744;

/// How many ports are tried if others listen there.
const MOST_TRIES: u32 = 16;

/// How many times the client looks for the server's port.
const MOST_LOOKS: u32 = 100_000_000;

/// The mark for no port yet.
const UNKNOWN: u64 = 0;

/// The mark for no port at all.
const NEVER: u64 = u64::MAX;

/// For how many seconds a connection whose client falls silent waits.
const SHORT_SILENCE: u64 = 3;

/// What the top call answered to a client, and what the client got.
#[derive(Drop)]
pub(crate) struct AnsweredOver {
    /// What it answered.
    pub(crate) answered: Answered,
    /// How many replies to the pair of agents the client received, and nothing else.
    pub(crate) replies: u64,
}

/// What is answered at a free port of 127.0.0.1 to one client that asks twice for the same and then
/// says that it is done. If `is_silent`, it asks once and then says nothing.
pub(crate) fn answer_over_socket<R>(rt: &R, is_silent: bool) -> Option<AnsweredOver>
where
    R: Host + Net<Listener = TcpListener, Stream = TcpStream>,
{
    let port = AtomicU64::new(UNKNOWN);
    let port = &port;
    let (replies, answered) = thread::join(
        rt,
        move || replies_from(rt, port, is_silent),
        move || serve_once(rt, port, is_silent),
    );
    Some(AnsweredOver {
        answered: answered?,
        replies: replies?,
    })
}

// Serves one client, and sets the mark for no port if there will be none.
fn serve_once<R>(rt: &R, told: &AtomicU64, is_silent: bool) -> Option<Answered>
where
    R: Host + Net<Listener = TcpListener, Stream = TcpStream>,
{
    let silence = if is_silent {
        SHORT_SILENCE
    } else {
        MAX_SILENCE
    };
    let answered = serve_somewhere(rt, told, silence);
    told.store(NEVER, Ordering::SeqCst);
    answered
}

// Serves one client at the first port tried at which nobody else listens.
fn serve_somewhere<R>(rt: &R, told: &AtomicU64, silence: u64) -> Option<Answered>
where
    R: Host + Net<Listener = TcpListener, Stream = TcpStream>,
{
    for _ in 0..MOST_TRIES {
        let port = some_port(rt)?;
        let words = format!(in rt.alloc(); "{port} 1 4 1").ok()?;
        let mut listener = Announced {
            listener: StdListener::with_silence(rt, silence),
            told,
        };
        let answered = answered_by(rt, &words, &mut listener, &OpenGate)?;
        let is_open = told.load(Ordering::SeqCst) != UNKNOWN;
        if is_open || answered.code != ServeStatus::LinkFault.code() {
            return Some(answered);
        }
    }
    None
}

// A random port.
fn some_port<R: RandomSource>(rt: &R) -> Option<u16> {
    let mut bytes = [0; 2];
    rt.fill_bytes(&mut bytes).ok()?;
    Some(FIRST_PORT + u16::from_be_bytes(bytes) % PORTS)
}

/// A listener that announces its port once it is open.
#[derive(Drop)]
struct Announced<'a, L> {
    listener: L,
    told: &'a AtomicU64,
}

impl<'a, L: Listener + Drop> Listener for Announced<'a, L> {
    type S = L::S;

    type K = L::K;

    ghost faults = { λ l. L.faults l.listener };

    ghost waiting = { λ l. L.waiting l.listener };

    ghost closed = { λ l. L.closed l.listener };

    ghost lent = { λ l. L.lent l.listener };

    fn open(&mut self, port: u16) -> Result<(), Failed> {
        self.listener.open(port)?;
        self.told.store(u64::from(port), Ordering::SeqCst);
        Ok(())
    }

    fn accept(&mut self) -> Result<(L::S, L::K), ListenFault> {
        self.listener.accept()
    }

    fn close(&mut self, source: L::S, sink: L::K) {
        self.listener.close(source, sink);
    }
}

// How many replies a client receives, once the server has announced its port.
fn replies_from<R: Net<Stream = TcpStream> + AllocGlobal>(
    rt: &R,
    told: &AtomicU64,
    is_silent: bool,
) -> Option<u64> {
    let port = port_in(told)?;
    let bytes = exchange(rt, port, is_silent).ok()?;
    replies_in(&bytes)
}

// The port that is announced; `None` if there will be none.
fn port_in(told: &AtomicU64) -> Option<u16> {
    for _ in 0..MOST_LOOKS {
        let port = told.load(Ordering::SeqCst);
        if port != UNKNOWN {
            return u16::try_from(port).ok();
        }
        yield_now();
    }
    None
}

// Sends the requests of a client, and reads everything that it receives.
fn exchange<R: Net<Stream = TcpStream> + AllocGlobal>(
    rt: &R,
    port: u16,
    is_silent: bool,
) -> io::Result<Vec<u8>> {
    let mut stream = TcpStream::connect(rt, ("127.0.0.1", port))?;
    if is_silent {
        stream.write_all(ONCE)?;
    } else {
        stream.write_all(TWICE)?;
        stream.shutdown(Shutdown::Write)?;
    }
    let mut back = Vec::new(rt.alloc());
    stream.read_to_end(&mut back)?;
    Ok(back)
}
