//! Accepting connections.

ghost use Rattle.std.specs.Prelude.{◌≡◌, ◌≤◌, ◌<◌, ◌+◌, All, map, length, IfOk, OnOk, OnErr};
ghost use Rattle.serve_clients.specs.Listener.{HasListenCause, first_of};
ghost use Rattle.serve_clients.specs.Sessions.{all_before, AreReturned};
ghost use Rattle.serve_clients.specs.Clients.{connection, IsNew};

use crate::give::return_all;
use crate::listen_fault::ListenFault;
use crate::listener::Listener;
use reply_cache::{FreshMaker, LookShare};
use solve_serve::{Peer, PeerList};
use std::alloc::Global;
use std::sync::ledger::Ledger;

/// Accepts `clients` connections, and gives each a fresh maker and one part of each ledger. If one
/// cannot be had, those accepted before it are given back.
pub(crate) fn accept_all<L: Listener, M: FreshMaker, A: Ledger, B: Ledger>(
    alloc: Global,
    listener: &mut L,
    clients: u32,
    whole: &mut LookShare<A, B>,
) -> Result<PeerList<L::S, L::K, M, A, B>, ListenFault>
    requires looks { (whole.old.looks.parts ≡ clients) × (whole.old.looks.amount ≡ 0) }
    requires misses { (whole.old.misses.parts ≡ clients) × (whole.old.misses.amount ≡ 0) }
    ensures cause { HasListenCause (L.faults listener.old) (L.faults listener.new) result }
    ensures count { IfOk result (λ peers. length peers.items ≡ clients) }
    ensures new { IfOk result (λ peers. All (λ p. IsNew M.calls p) peers.items) }
    ensures waiting { IfOk result (λ peers. L.waiting listener.old ≡ all_before (map (λ p. connection p) peers.items) (L.waiting listener.new)) }
    ensures closed { OnOk result (L.closed listener.new ≡ L.closed listener.old) }
    ensures lent { IfOk result (λ peers. L.lent listener.new ≡ L.lent listener.old + length peers.items) }
    ensures returned { OnErr result (AreReturned (L.waiting listener.old) (L.waiting listener.new) (L.closed listener.old) (L.closed listener.new)) }
    ensures none_lent { OnErr result (L.lent listener.new ≡ L.lent listener.old) }
    ensures looks { OnOk result ((whole.new.looks.parts ≡ 0) × (whole.new.looks.amount ≡ 0)) }
    ensures misses { OnOk result ((whole.new.misses.parts ≡ 0) × (whole.new.misses.amount ≡ 0)) }
{
    let mut peers = Vec::with_capacity(alloc, clients as usize)?;
    for _ in 0..clients {
        match accept_one(listener, whole) {
            Ok(peer) => peers.push_reserved(peer),
            Err(fault) => {
                return_all(listener, peers);
                return Err(fault);
            }
        }
    }
    Ok(peers)
}

/// Accepts one connection, and splits off one part of each ledger for it.
fn accept_one<L: Listener, M: FreshMaker, A: Ledger, B: Ledger>(
    listener: &mut L,
    whole: &mut LookShare<A, B>,
) -> Result<Peer<L::S, L::K, M, A, B>, ListenFault>
    requires looks { (0 < whole.old.looks.parts) × (whole.old.looks.amount ≡ 0) }
    requires misses { (0 < whole.old.misses.parts) × (whole.old.misses.amount ≡ 0) }
    ensures cause { HasListenCause (L.faults listener.old) (L.faults listener.new) result }
    ensures new { IfOk result (λ p. IsNew M.calls p) }
    ensures waiting { IfOk result (λ p. L.waiting listener.old ≡ first_of (connection p) (L.waiting listener.new)) }
    ensures closed { L.closed listener.new ≡ L.closed listener.old }
    ensures lent { OnOk result (L.lent listener.new ≡ L.lent listener.old + 1) }
    ensures none_waiting { OnErr result (L.waiting listener.new ≡ L.waiting listener.old) }
    ensures none_lent { OnErr result (L.lent listener.new ≡ L.lent listener.old) }
    ensures looks { OnOk result ((whole.new.looks.parts + 1 ≡ whole.old.looks.parts) × (whole.new.looks.amount ≡ 0)) }
    ensures misses { OnOk result ((whole.new.misses.parts + 1 ≡ whole.old.misses.parts) × (whole.new.misses.amount ≡ 0)) }
{
    let (source, sink) = listener.accept()?;
    let share = LookShare {
        looks: whole.looks.split_off(1, 0),
        misses: whole.misses.split_off(1, 0),
    };
    Ok(Peer {
        source,
        sink,
        maker: M::fresh(),
        share,
        end: None,
    })
}
