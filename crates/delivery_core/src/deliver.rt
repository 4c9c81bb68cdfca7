//! What a lawful event does to the agents.

ghost use Rattle.std.specs.Prelude.{◌≡◌, ◌<◌, length, None, OnOk, min};
ghost use Rattle.std.specs.List.{All, sum_by};
ghost use Rattle.dcop_base.specs.Problem.{Dcop};
ghost use Rattle.protocol_steps.specs.Network.{Network};
ghost use Rattle.delivery_core.specs.NetworkState.{most_counted};
ghost use Rattle.delivery_core.specs.SeatEvents.{deliver, deliver_all, core_fault};
ghost use Rattle.delivery_core.specs.Shown.{ShowsNetwork, Moves};
ghost use Rattle.delivery_core.specs.Exchanges.{Trades};
ghost use Rattle.delivery_core.specs.Takes.{KeepCalm};

use crate::exchange::Exchange;
use crate::seat::Seat;
use dcop_base::{NoMemory, VarId};
use letter_queues::Arrivals;
use protocol_steps::{Letter, Parcel, Take};
use std::alloc::Global;

/// Adds a parcel to the inbox of its receiver, and records the arrival.
fn post_one(
    seats: &mut [Seat],
    arrivals: &mut Arrivals,
    from: VarId,
    parcel: Parcel,
) -> Result<(), NoMemory>
    requires { parcel.0 < length seats.old }
    ensures came { OnOk result (seats.new ≡ deliver from seats.old parcel) }
    ensures calm { KeepCalm arrivals.old seats.old arrivals.new seats.new }
{
    let Parcel { to, message } = parcel;
    arrivals.rouse(to.0 as usize);
    seats[to.0 as usize].add(from, Letter { from, message })
}

/// Adds each parcel that an agent sent to the inbox of its receiver, in order, and records the
/// arrivals. `parcels` is emptied and keeps its memory.
pub(crate) fn post(
    seats: &mut [Seat],
    arrivals: &mut Arrivals,
    from: VarId,
    parcels: &mut Vec<Parcel>,
) -> Result<(), NoMemory>
    requires { All (λ p. p.0 < length seats.old) parcels.old.items }
    ensures came { OnOk result (seats.new ≡ deliver_all from seats.old parcels.old.items) }
    ensures calm { KeepCalm arrivals.old seats.old arrivals.new seats.new }
{
    for parcel in parcels.drain(..) {
        post_one(seats, arrivals, from, parcel)?;
    }
    Ok(())
}

/// Lets an agent take the batch that these lawful takes name, step once and send. `letters` and
/// `parcels` are buffers for the batch and for what the agent sends.
pub(crate) fn act(
    alloc: Global,
    seats: &mut [Seat],
    arrivals: &mut Arrivals,
    letters: &mut Vec<Letter>,
    parcels: &mut Vec<Parcel>,
    agent: VarId,
    takes: &[Take],
) -> Result<(), NoMemory>
    requires network { (p : Dcop) × (net : Network) × ShowsNetwork p net seats.old }
    requires lawful { core_fault seats.old (record { agent = agent; takes = takes.now }) ≡ None }
    ensures moved { OnOk result (Moves seats.old (record { agent = agent; takes = takes.now }) seats.new) }
    ensures calm { KeepCalm arrivals.old seats.old arrivals.new seats.new }
{
    arrivals.rouse(agent.0 as usize);
    seats[agent.0 as usize].react(alloc, takes, letters, parcels)?;
    post(seats, arrivals, agent, parcels)
}

/// Does what [`act`] does, and replaces the content of `exchange` by what the agent took and sent.
pub(crate) fn act_telling(
    alloc: Global,
    seats: &mut [Seat],
    arrivals: &mut Arrivals,
    agent: VarId,
    takes: &[Take],
    exchange: &mut Exchange,
) -> Result<(), NoMemory>
    requires network { (p : Dcop) × (net : Network) × ShowsNetwork p net seats.old }
    requires lawful { core_fault seats.old (record { agent = agent; takes = takes.now }) ≡ None }
    ensures moved { OnOk result (Moves seats.old (record { agent = agent; takes = takes.now }) seats.new) }
    ensures calm { KeepCalm arrivals.old seats.old arrivals.new seats.new }
    ensures tells { OnOk result (Trades seats.old (record { agent = agent; takes = takes.now })
        exchange.new.took.items exchange.new.sent.items) }
{
    arrivals.rouse(agent.0 as usize);
    let mut parcels = Vec::new(alloc);
    seats[agent.0 as usize].react_telling(alloc, takes, &mut parcels, exchange)?;
    post(seats, arrivals, agent, &mut parcels)
}

/// How many messages the takes name together, or 2^64 - 1 if they are more.
pub(crate) fn count_of(takes: &[Take]) -> u64
    ensures { result ≡ min (sum_by (λ t. t.count) takes.now) most_counted }
{
    let mut total: u64 = 0;
    for take in takes {
        total = total.saturating_add(u64::from(take.count));
    }
    total
}
