//! The server's top call over a listener in memory.

use crate::gates::MeetingGate;
use crate::pair::{ONCE, replies_in};
use crate::solving::{Answered, words_in};
use dcop_edge::{Gate, MemorySink, MemorySource, OpenGate};
use serve_clients::{Listener, MemoryListener};
use serve_replies::SolveMaker;
use serve_top::serve_all;
use std::alloc::Global;
use std::sync::Wait;
use std::thread::Threads;

/// What the top call answered, and what was written to clients that each asked once.
#[derive(Drop)]
pub(crate) struct Served {
    /// What it answered.
    pub(crate) answered: Answered,
    /// How many of the first two sessions saw no other one.
    pub(crate) missed: u64,
    /// How many replies to the pair of agents, and nothing else, were written to each connection,
    /// in the order in which these were given back.
    pub(crate) replies: Vec<u64>,
}

impl Served {
    /// To how many connections exactly this many replies were written.
    pub(crate) fn connections_with(&self, replies: u64) -> u64 {
        let mut count: u64 = 0;
        for written in self.replies.as_slice() {
            if *written == replies {
                count = count.saturating_add(1);
            }
        }
        count
    }
}

/// What is answered to these words if nobody connects.
pub(crate) fn answer_to<R>(rt: &R, words: &str) -> Option<Answered>
where
    R: Threads + Wait + AllocGlobal + Sync,
{
    let alloc = rt.alloc();
    let mut listener = MemoryListener::new(alloc, Vec::new(alloc), Vec::new(alloc)).ok()?;
    answered_by(rt, words, &mut listener, &OpenGate)
}

/// What is answered to these words if so many clients connect, each of which asks once, and the
/// first two sessions wait for each other. `None` if something other than replies to the pair of
/// agents is written to a client.
pub(crate) fn answer_to_clients<R>(rt: &R, words: &str, clients: usize) -> Option<Served>
where
    R: Threads + Wait + AllocGlobal + Sync,
{
    let alloc = rt.alloc();
    let connections = connections(alloc, clients)?;
    let mut listener = MemoryListener::new(alloc, connections, Vec::new(alloc)).ok()?;
    let gate = MeetingGate::new();
    let answered = answered_by(rt, words, &mut listener, &gate)?;
    Some(Served {
        answered,
        missed: gate.missed(),
        replies: replies_of(alloc, &listener)?,
    })
}

/// What is answered to these words.
pub(crate) fn answered_by<R, L, G>(
    rt: &R,
    words: &str,
    listener: &mut L,
    gate: &G,
) -> Option<Answered>
where
    R: Threads + Wait + AllocGlobal + Sync,
    L: Listener,
    G: Gate,
{
    let alloc = rt.alloc();
    let words = words_in(alloc, words)?;
    let mut sink = MemorySink::new(alloc, Vec::new(alloc));
    let status = serve_all::<R, L, MemorySink, SolveMaker, G>(
        rt, alloc, &words, listener, &mut sink, gate,
    );
    Answered::new(alloc, status.code(), &sink)
}

// Connections on each of which the pair of agents is asked for once.
fn connections(alloc: Global, clients: usize) -> Option<Vec<(MemorySource, MemorySink)>> {
    let mut connections = Vec::new(alloc);
    for _ in 0..clients {
        let source = MemorySource::new(Vec::from_slice(alloc, ONCE).ok()?, Vec::new(alloc));
        let sink = MemorySink::new(alloc, Vec::new(alloc));
        connections.push((source, sink)).ok()?;
    }
    Some(connections)
}

// How many replies were written to each connection that was given back; `None` if something else
// was.
fn replies_of(alloc: Global, listener: &MemoryListener) -> Option<Vec<u64>> {
    let mut replies = Vec::new(alloc);
    for (_source, sink) in listener.closed() {
        replies.push(replies_in(sink.bytes())?).ok()?;
    }
    Some(replies)
}
