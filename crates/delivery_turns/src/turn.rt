//! Playing in rounds of one turn.

ghost use Rattle.std.specs.Prelude.{◌≡◌, ◌<◌, ◌≤◌, length, IfOk, OnOk};
ghost use Rattle.dcop_base.specs.Limits.{variable_limit};
ghost use Rattle.delivery_core.specs.Agents.{IsStartFor, network_of};
ghost use Rattle.delivery_turns.specs.Turns.{IsPlayed};
ghost use Rattle.delivery_core.specs.Shown.{IsSomeCore};
ghost use Rattle.delivery_turns.specs.CoreTurns.{is_over, TakesTurn, AddsTurn, PlaysRound, PlaysOut};

use dcop_base::{NoMemory, Problem, Sequence, VarId};
use dcop_edge::{Gate, OpenGate};
use delivery_core::{CoreState, Start};
use protocol_steps::{Event, EventList, Take};
use std::alloc::Global;

/// What was played.
#[derive(Drop)]
pub struct Played {
    /// The network state at the end.
    pub state: CoreState,
    /// The events, in order.
    pub events: EventList,
}

/// Plays the turn of one agent: it takes what is pending. The content of `takes` is replaced by
/// what it takes.
pub(crate) fn take_turn<G: Gate>(
    alloc: Global,
    gate: &G,
    state: &mut CoreState,
    me: usize,
    takes: &mut Vec<Take>,
) -> Result<(), NoMemory>
    requires core { IsSomeCore state.old }
    requires inside { me < length state.old.seats }
    requires few { length state.old.seats ≤ variable_limit }
    ensures { OnOk result (TakesTurn me state.old state.new takes.new.items) }
{
    state.list_takes(gate, VarId(me as u32), takes)?;
    if takes.is_empty() {
        return Ok(());
    }
    state.follow(alloc, VarId(me as u32), takes.as_slice())
}

/// Plays the turn of one agent: it takes what is pending. If it takes something, its event is
/// appended.
fn add_turn<G: Gate>(
    alloc: Global,
    gate: &G,
    state: &mut CoreState,
    me: usize,
    events: &mut Vec<Event>,
) -> Result<(), NoMemory>
    requires core { IsSomeCore state.old }
    requires inside { me < length state.old.seats }
    requires few { length state.old.seats ≤ variable_limit }
    ensures { OnOk result (AddsTurn me state.old events.old.items state.new events.new.items) }
{
    let mut takes = Vec::new(alloc);
    take_turn(alloc, gate, state, me, &mut takes)?;
    if takes.is_empty() {
        return Ok(());
    }
    events.push(Event {
        agent: VarId(me as u32),
        takes: Sequence::from_vec(takes),
    })?;
    Ok(())
}

/// Plays a round: the turns of all agents in ascending order. Their events are appended.
fn play_round<G: Gate>(
    alloc: Global,
    gate: &G,
    state: &mut CoreState,
    events: &mut Vec<Event>,
) -> Result<(), NoMemory>
    requires core { IsSomeCore state.old }
    requires few { length state.old.seats ≤ variable_limit }
    ensures { OnOk result (PlaysRound state.old events.old.items state.new events.new.items) }
{
    for me in 0..state.count() {
        add_turn(alloc, gate, state, me, events)?;
    }
    Ok(())
}

/// Whether no further round is played: all agents have ended, or the budget is spent.
pub(crate) fn is_over(state: &CoreState, budget: u64) -> bool
    ensures { result ≡ is_over budget state.now }
{
    state.all_ended() || state.deliveries() >= budget
}

/// Plays rounds until playing stops. Returns the events.
fn play_rounds(alloc: Global, state: &mut CoreState, budget: u64) -> Result<Vec<Event>, NoMemory>
    requires core { IsSomeCore state.old }
    requires few { length state.old.seats ≤ variable_limit }
    ensures { IfOk result (λ events. PlaysOut budget state.old state.new events.items) }
{
    let mut events = Vec::new(alloc);
    for _ in 0..budget {
        if is_over(state, budget) {
            return Ok(events);
        }
        let before = events.len();
        play_round(alloc, &OpenGate, state, &mut events)?;
        if events.len() == before {
            return Ok(events);
        }
    }
    Ok(events)
}

/// Plays the agents in rounds of one turn each, from the start state. A round visits the agents in
/// ascending order. Each of them that has not ended and has something pending makes one event: it
/// takes from each sender what is pending, at most 64 messages. Playing stops when, after the start
/// or a round, all agents have ended, the deliveries are at least `budget`, or the round had no
/// event. The tree of a start must be a pseudotree of the problem, and linked: each variable except
/// the root is a neighbour of its parent. The requested error must be at most 2^62.
///
/// # Errors
///
/// [`NoMemory`] if memory runs out.
pub fn play(alloc: Global, problem: &Problem, start: Start, budget: u64) -> Result<Played, NoMemory>
    requires start { IsStartFor problem.now start }
    ensures end { IfOk result (λ played. IsPlayed budget (network_of problem.now start) played.events played.state) }
    ensures size { IfOk result (λ played. length played.state.seats ≡ length problem.now.sizes) }
{
    let mut state = CoreState::start(alloc, problem, &start)?;
    let events = play_rounds(alloc, &mut state, budget)?;
    Ok(Played {
        state,
        events: Sequence::from_vec(events),
    })
}
