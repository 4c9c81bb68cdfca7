//! Serving the clients of a listener.

ghost use Rattle.std.specs.Prelude.{◌≡◌, ◌≤◌, ◌<◌, IfOk, OnErr};
ghost use Rattle.reply_cache.specs.Limits.{entry_limit};
ghost use Rattle.solve_serve.specs.Peers.{peer_limit, server_limit};
ghost use Rattle.serve_clients.specs.Listener.{HasListenCause};
ghost use Rattle.serve_clients.specs.Sessions.{HaveServed, AreReturned};

use crate::accept::accept_all;
use crate::give::give_all;
use crate::listen_fault::ListenFault;
use crate::listener::Listener;
use dcop_edge::Gate;
use reply_cache::{FreshMaker, LookShare, ReplyCache, SharedCache};
use solve_serve::{SessionEnd, serve_peers};
use std::alloc::Global;
use std::marker::{Brand, Send, Sync};
use std::sync::Wait;
use std::sync::ledger::{Blank, Ledger};
use std::thread::Threads;

/// What a server is asked for.
#[derive(Clone, Copy, Debug, PartialEq, Eq)]
pub struct Plan {
    /// How many connections it accepts: 1 to 64.
    pub clients: u32,
    /// How many replies its cache keeps: 1 to 1,024.
    pub entries: u32,
    /// How many sessions it serves concurrently: 1 to 16.
    pub workers: u32,
}

/// How the sessions of a server ended.
#[derive(Debug, Drop)]
pub struct Outcome {
    /// How each session ended, in the order in which the connections were accepted.
    pub ends: Vec<SessionEnd>,
    /// How many looks at the cache there were.
    pub looks: u64,
}

/// Accepts `plan.clients` connections from a listener that is open, serves them concurrently over
/// one cache of replies, each with a fresh maker, and gives them back in the order in which they
/// were accepted. The call may wait.
///
/// # Errors
///
/// [`ListenFault::Failed`] if the listener failed in this call, and [`ListenFault::NoMemory`] if
/// memory runs out. In both cases no session was begun, and each connection that was accepted was
/// given back.
pub fn serve_clients<R: Threads + Wait + Sync, L: Listener, M: FreshMaker, G: Gate>(
    rt: &R,
    alloc: Global,
    listener: &mut L,
    plan: Plan,
    gate: &G,
) -> Result<Outcome, ListenFault>
    requires clients { (0 < plan.clients) × (plan.clients ≤ peer_limit) }
    requires entries { (0 < plan.entries) × (plan.entries ≤ entry_limit) }
    requires workers { (0 < plan.workers) × (plan.workers ≤ server_limit) }
    ensures served { IfOk result (λ o. HaveServed L.S.left L.S.faults L.K.held L.K.faults M.is_reply plan.clients o.ends.items o.looks
        (L.waiting listener.old) (L.waiting listener.new) (L.closed listener.old) (L.closed listener.new)) }
    ensures cause { HasListenCause (L.faults listener.old) (L.faults listener.new) result }
    ensures returned { OnErr result (AreReturned (L.waiting listener.old) (L.waiting listener.new) (L.closed listener.old) (L.closed listener.new)) }
    ensures none_lent { L.lent listener.new ≡ L.lent listener.old }
{
    let looks = Blank::new(plan.clients as u64);
    let misses = Blank::new(plan.clients as u64);
    serve_with::<R, L, M, Brand, Brand, G>(rt, alloc, listener, looks, misses, plan, gate)
}

/// [`serve_clients`] with a ledger of the looks and one of the misses.
fn serve_with<
    R: Threads + Wait + Sync,
    L: Listener,
    M: FreshMaker,
    A: Ledger + Send + Sync,
    B: Ledger + Send + Sync,
    G: Gate,
>(
    rt: &R,
    alloc: Global,
    listener: &mut L,
    looks: Blank,
    misses: Blank,
    plan: Plan,
    gate: &G,
) -> Result<Outcome, ListenFault>
    requires looks { (looks.name ≡ A.name) × (looks.parts ≡ A.parts) × (looks.parts ≡ plan.clients) }
    requires misses { (misses.name ≡ B.name) × (misses.parts ≡ B.parts) × (misses.parts ≡ plan.clients) }
    requires clients { (0 < plan.clients) × (plan.clients ≤ peer_limit) }
    requires entries { (0 < plan.entries) × (plan.entries ≤ entry_limit) }
    requires workers { (0 < plan.workers) × (plan.workers ≤ server_limit) }
    ensures served { IfOk result (λ o. HaveServed L.S.left L.S.faults L.K.held L.K.faults M.is_reply plan.clients o.ends.items o.looks
        (L.waiting listener.old) (L.waiting listener.new) (L.closed listener.old) (L.closed listener.new)) }
    ensures cause { HasListenCause (L.faults listener.old) (L.faults listener.new) result }
    ensures returned { OnErr result (AreReturned (L.waiting listener.old) (L.waiting listener.new) (L.closed listener.old) (L.closed listener.new)) }
    ensures none_lent { L.lent listener.new ≡ L.lent listener.old }
{
    let (looks, all_looks) = looks.open::<A>();
    let (misses, all_misses) = misses.open::<B>();
    let mut whole = LookShare {
        looks: all_looks,
        misses: all_misses,
    };
    let cache = ReplyCache::<M, A, B>::new(alloc, plan.entries, looks, misses)?;
    let cache = SharedCache::new(cache);
    let mut ends = Vec::with_capacity(alloc, plan.clients as usize)?;
    let mut peers = accept_all(alloc, listener, plan.clients, &mut whole)?;
    serve_peers(rt, alloc, &mut peers, &cache, plan.workers, gate);
    give_all(listener, peers, &mut whole, &mut ends);
    let looks = counted(cache.into_inner(), whole);
    Ok(Outcome { ends, looks })
}

/// How many looks a cache counted; the whole share has as many.
fn counted<M: FreshMaker, A: Ledger, B: Ledger>(
    cache: ReplyCache<M, A, B>,
    whole: LookShare<A, B>,
) -> u64
    requires { (whole.looks.parts ≡ A.parts) × (whole.misses.parts ≡ B.parts) }
    ensures { result ≡ whole.looks.amount }
{
    let mut cache = cache;
    let mut whole = whole;
    cache.audit(&mut whole);
    cache.looks()
}
