//! Concurrent sessions.

ghost use Rattle.std.specs.Prelude.{◌≡◌, ◌≤◌, ◌<◌, All, length};
ghost use Rattle.solve_serve.specs.Peers.{peer_limit, server_limit, IsFresh, IsServed, AreServed};

use crate::end::SessionEnd;
use crate::permit::Permits;
use crate::session::serve_one;
use crate::turns::each_in_order;
use dcop_edge::{Gate, Sink, Source};
use reply_cache::{LookShare, Maker, SharedCache};
use std::alloc::Global;
use std::marker::{Send, Sync};
use std::sync::Wait;
use std::sync::ledger::Ledger;
use std::thread::Threads;

/// The two ends of a session, what serves it, and how it ended.
#[derive(Drop)]
pub struct Peer<S, K, M, A: Ledger, B: Ledger> {
    /// Where its requests come from.
    pub source: S,
    /// Where its replies go.
    pub sink: K,
    /// What makes replies for it.
    pub maker: M,
    /// Its share of the looks at the cache.
    pub share: LookShare<A, B>,
    /// How its session ended; `None` until then.
    pub end: Option<SessionEnd>,
}

/// Peers, in the order of their sessions' numbers.
pub type PeerList<S, K, M, A, B> = Vec<Peer<S, K, M, A, B>>;

/// Serves all peers, each by [`serve_one`] with its place in the list, from 0, as the session's
/// number.
///
/// There are at most 64 peers and 1 to 16 workers, which serve concurrently. Sessions begin in the
/// order of the list, each as soon as a worker is free. If no thread can be had, the sessions are
/// served one after another. Afterwards each peer has an end. Running out of memory is the end of a
/// session.
pub fn serve_peers<
    R: Threads + Wait + Sync,
    S: Source + Send,
    K: Sink + Send,
    M: Maker,
    A: Ledger + Send + Sync,
    B: Ledger + Send + Sync,
    G: Gate,
>(
    rt: &R,
    alloc: Global,
    peers: &mut PeerList<S, K, M, A, B>,
    cache: &SharedCache<M, A, B>,
    workers: u32,
    gate: &G,
)
    requires workers { (0 < workers) × (workers ≤ server_limit) }
    requires few { length peers.old.items ≤ peer_limit }
    requires fresh { All (λ p. IsFresh M.calls p) peers.old.items }
    ensures served { AreServed S.left S.faults K.held K.faults M.calls M.does M.is_reply peers.old.items peers.new.items }
{
    serve_all(rt, alloc, peers.as_mut_slice(), cache, workers, gate);
}

/// [`serve_peers`] on a slice.
fn serve_all<
    R: Threads + Wait + Sync,
    S: Source + Send,
    K: Sink + Send,
    M: Maker,
    A: Ledger + Send + Sync,
    B: Ledger + Send + Sync,
    G: Gate,
>(
    rt: &R,
    alloc: Global,
    peers: &mut [Peer<S, K, M, A, B>],
    cache: &SharedCache<M, A, B>,
    workers: u32,
    gate: &G,
)
    requires few { length peers.old ≤ peer_limit }
    requires fresh { All (λ p. IsFresh M.calls p) peers.old }
    ensures served { AreServed S.left S.faults K.held K.faults M.calls M.does M.is_reply peers.old peers.new }
{
    let permits = Permits::new(workers);
    let permits = &permits;
    let serve = |i: usize, peer: &mut Peer<S, K, M, A, B>|
        requires inside { i < 64 }
        requires fresh { IsFresh M.calls peer.now }
        ensures { IsServed S.left S.faults K.held K.faults M.calls M.does M.is_reply peer.entry.now peer.exit.now }
    {
        serve_peer(rt, alloc, i as u32, peer, cache, gate);
        permits.give(rt);
    };
    each_in_order(rt, permits, &serve, peers);
}

/// Serves one peer.
fn serve_peer<
    R: Threads + Wait + Sync,
    S: Source,
    K: Sink,
    M: Maker,
    A: Ledger,
    B: Ledger,
    G: Gate,
>(
    rt: &R,
    alloc: Global,
    session: u32,
    peer: &mut Peer<S, K, M, A, B>,
    cache: &SharedCache<M, A, B>,
    gate: &G,
)
    requires { IsFresh M.calls peer.old }
    ensures { IsServed S.left S.faults K.held K.faults M.calls M.does M.is_reply peer.old peer.new }
{
    let end = serve_one(
        rt,
        alloc,
        session,
        &mut peer.source,
        &mut peer.sink,
        cache,
        &mut peer.share,
        &mut peer.maker,
        gate,
    );
    peer.end = Some(end);
}
