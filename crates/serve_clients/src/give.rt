//! Giving connections back.

ghost use Rattle.std.specs.Prelude.{◌≡◌, ◌≤◌, ◌<◌, ◌+◌, ◌++◌, ◌∷◌, [], All, map, length, IsSome, vec_len, vec_capacity};
ghost use Rattle.serve_clients.specs.Listener.{last_of};
ghost use Rattle.serve_clients.specs.Sessions.{total, all_behind};
ghost use Rattle.serve_clients.specs.Clients.{connection, end_of, looks_of, look_parts_of, miss_parts_of};

use crate::listener::Listener;
use reply_cache::LookShare;
use solve_serve::{Peer, PeerList, SessionEnd};
use std::collections::VecDeque;
use std::sync::ledger::Ledger;

/// Gives all connections back, in order, and notes how each session ended. It joins the parts of
/// both ledgers again.
pub(crate) fn give_all<L: Listener, M: Drop, A: Ledger, B: Ledger>(
    listener: &mut L,
    peers: PeerList<L::S, L::K, M, A, B>,
    whole: &mut LookShare<A, B>,
    ends: &mut Vec<SessionEnd>,
)
    requires ended { All (λ p. IsSome p.end) peers.items }
    requires lent { length peers.items ≤ L.lent listener.old }
    requires room { vec_len ends.old + length peers.items ≤ vec_capacity ends.old }
    ensures closed { L.closed listener.new ≡ all_behind (L.closed listener.old) (map (λ p. connection p) peers.items) }
    ensures waiting { L.waiting listener.new ≡ L.waiting listener.old }
    ensures faults { L.faults listener.new ≡ L.faults listener.old }
    ensures none_lent { L.lent listener.new + length peers.items ≡ L.lent listener.old }
    ensures ends { ends.new.items ≡ ends.old.items ++ map (λ p. end_of p) peers.items }
    ensures looks { whole.new.looks.amount ≡ whole.old.looks.amount + total (λ p. looks_of p) peers.items }
    ensures look_parts { whole.new.looks.parts ≡ whole.old.looks.parts + total (λ p. look_parts_of p) peers.items }
    ensures miss_parts { whole.new.misses.parts ≡ whole.old.misses.parts + total (λ p. miss_parts_of p) peers.items }
{
    let mut rest = VecDeque::from_vec(peers);
    while let Some(peer) = rest.pop_front() {
        give_one(listener, peer, whole, ends);
    }
}

/// Gives one connection back.
fn give_one<L: Listener, M: Drop, A: Ledger, B: Ledger>(
    listener: &mut L,
    peer: Peer<L::S, L::K, M, A, B>,
    whole: &mut LookShare<A, B>,
    ends: &mut Vec<SessionEnd>,
)
    requires ended { IsSome peer.end }
    requires lent { 0 < L.lent listener.old }
    requires room { vec_len ends.old < vec_capacity ends.old }
    ensures closed { L.closed listener.new ≡ last_of (L.closed listener.old) (connection peer) }
    ensures waiting { L.waiting listener.new ≡ L.waiting listener.old }
    ensures faults { L.faults listener.new ≡ L.faults listener.old }
    ensures lent { L.lent listener.new + 1 ≡ L.lent listener.old }
    ensures ends { ends.new.items ≡ ends.old.items ++ end_of peer ∷ [] }
    ensures capacity { vec_capacity ends.new ≡ vec_capacity ends.old }
    ensures looks { whole.new.looks.amount ≡ whole.old.looks.amount + looks_of peer }
    ensures look_parts { whole.new.looks.parts ≡ whole.old.looks.parts + look_parts_of peer }
    ensures miss_parts { whole.new.misses.parts ≡ whole.old.misses.parts + miss_parts_of peer }
{
    let Peer {
        source,
        sink,
        maker: _,
        share,
        end,
    } = peer;
    listener.close(source, sink);
    let LookShare { looks, misses } = share;
    whole.looks.merge(looks);
    whole.misses.merge(misses);
    ends.push_reserved(end.unwrap());
}

/// Gives back, in order, all connections whose sessions were not begun.
pub(crate) fn return_all<L: Listener, M: Drop, A: Ledger, B: Ledger>(
    listener: &mut L,
    peers: PeerList<L::S, L::K, M, A, B>,
)
    requires lent { length peers.items ≤ L.lent listener.old }
    ensures closed { L.closed listener.new ≡ all_behind (L.closed listener.old) (map (λ p. connection p) peers.items) }
    ensures waiting { L.waiting listener.new ≡ L.waiting listener.old }
    ensures faults { L.faults listener.new ≡ L.faults listener.old }
    ensures none_lent { L.lent listener.new + length peers.items ≡ L.lent listener.old }
{
    let mut rest = VecDeque::from_vec(peers);
    while let Some(peer) = rest.pop_front() {
        return_one(listener, peer);
    }
}

/// Gives back one connection whose session was not begun.
fn return_one<L: Listener, M: Drop, A: Ledger, B: Ledger>(
    listener: &mut L,
    peer: Peer<L::S, L::K, M, A, B>,
)
    requires lent { 0 < L.lent listener.old }
    ensures closed { L.closed listener.new ≡ last_of (L.closed listener.old) (connection peer) }
    ensures waiting { L.waiting listener.new ≡ L.waiting listener.old }
    ensures faults { L.faults listener.new ≡ L.faults listener.old }
    ensures lent { L.lent listener.new + 1 ≡ L.lent listener.old }
{
    let Peer {
        source,
        sink,
        maker: _,
        share: _,
        end: _,
    } = peer;
    listener.close(source, sink);
}
