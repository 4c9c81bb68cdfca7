//! Playing in rounds of many turns.

ghost use Rattle.std.specs.Prelude.{◌≡◌, ◌<◌, ◌≤◌, ◌+◌, length, IfOk, OnOk};
ghost use Rattle.dcop_base.specs.Limits.{variable_limit, budget_limit};
ghost use Rattle.protocol_steps.specs.Outcomes.{HaveRun};
ghost use Rattle.protocol_steps.specs.Rounds.{most_events};
ghost use Rattle.delivery_core.specs.Agents.{IsStartFor, agents_of};
ghost use Rattle.delivery_turns.specs.Sprints.{turn_share, round_room, run_room, IsSomeNoted, NotesTurn, TakesAll, PlaysSprint, PlaysSprints};
ghost use Rattle.delivery_turns.specs.PlayedOut.{HaveDulyRun, HavePlayedOut, RunsGoOneWay};

use crate::turn::{is_over, take_turn};
use dcop_base::{NoMemory, Problem, VarId, problem_is_whole};
use dcop_edge::Gate;
use delivery_core::{CoreState, Start, outcome_of};
use log_replay::{Notes, log_of, note, notes_if};
use protocol_steps::{Outcome, Take};
use run_log::Log;
use std::alloc::Global;

/// The most turns of a round.
const MOST_TURNS: usize = 32;

/// The limit of turns in a round that the code has equals the limit of an agent's events in a round
/// that the definitions have.
pub fn turns_agree()
    ensures { MOST_TURNS ≡ most_events }
{}

/// Runs of agents go one way: with a log and without one they have the same rounds and the same
/// outcome.
pub fn runs_go_one_way()
    ensures { RunsGoOneWay }
{}

/// What agents that were played out have come to.
#[derive(Debug, Drop)]
pub struct PlayedOut {
    /// The outcome of their run.
    pub outcome: Outcome,
    /// The log of their run, if it was requested.
    pub log: Option<Log>,
}

/// Plays the turn of one agent: it takes what is pending. The content of `takes` is replaced by
/// what it takes. If it takes something, its event is noted, if notes are kept.
fn take_noted<G: Gate>(
    alloc: Global,
    gate: &G,
    state: &mut CoreState,
    notes: &mut Option<Notes>,
    me: usize,
    takes: &mut Vec<Take>,
) -> Result<(), NoMemory>
    requires core { IsSomeNoted 1 state.old notes.old }
    requires inside { me < length state.old.seats }
    requires few { length state.old.seats ≤ variable_limit }
    ensures { OnOk result (NotesTurn me state.old notes.old state.new notes.new takes.new.items) }
{
    take_turn(alloc, gate, state, me, takes)?;
    if takes.is_empty() {
        return Ok(());
    }
    note(alloc, notes, state, VarId(me as u32), takes.as_slice())
}

/// Plays a turn of all agents, in ascending order, and passes over those that are known to take
/// nothing. Returns whether the turn took nothing. `takes` is a buffer for what one agent takes.
fn play_all<G: Gate>(
    alloc: Global,
    gate: &G,
    state: &mut CoreState,
    notes: &mut Option<Notes>,
    takes: &mut Vec<Take>,
) -> Result<bool, NoMemory>
    requires core { IsSomeNoted (turn_share + 1) state.old notes.old }
    requires few { length state.old.seats ≤ variable_limit }
    ensures { IfOk result (TakesAll state.old notes.old state.new notes.new) }
{
    let mut still = true;
    let mut from = 0;
    while let Some(me) = state.next_busy(from) {
        take_noted(alloc, gate, state, notes, me, takes)?;
        still &= takes.is_empty();
        from = me + 1;
    }
    Ok(still)
}

/// Plays a round: turns of all agents, until a turn takes nothing, at most 32 turns. Returns whether
/// no turn took anything.
fn play_sprint<G: Gate>(
    alloc: Global,
    gate: &G,
    state: &mut CoreState,
    notes: &mut Option<Notes>,
    takes: &mut Vec<Take>,
) -> Result<bool, NoMemory>
    requires core { IsSomeNoted round_room state.old notes.old }
    requires few { length state.old.seats ≤ variable_limit }
    ensures { IfOk result (PlaysSprint state.old notes.old state.new notes.new) }
{
    let mut still = true;
    for _ in 0..MOST_TURNS {
        if play_all(alloc, gate, state, notes, takes)? {
            return Ok(still);
        }
        still = false;
    }
    Ok(still)
}

/// Plays rounds until playing stops.
fn play_sprints<G: Gate>(
    alloc: Global,
    gate: &G,
    state: &mut CoreState,
    notes: &mut Option<Notes>,
    budget: u64,
) -> Result<(), NoMemory>
    requires core { IsSomeNoted (run_room budget) state.old notes.old }
    requires few { length state.old.seats ≤ variable_limit }
    requires budget { budget ≤ budget_limit }
    ensures { OnOk result (PlaysSprints budget state.old notes.old state.new notes.new) }
{
    let mut takes = Vec::new(alloc);
    for _ in 0..budget {
        if is_over(state, budget) {
            return Ok(());
        }
        if play_sprint(alloc, gate, state, notes, &mut takes)? {
            return Ok(());
        }
    }
    Ok(())
}

/// Plays the agents on this thread, in rounds from the start state, and returns the outcome. The log
/// of the run is included exactly when one is requested. By [`runs_go_one_way`] the run is the same
/// with a log and without one.
///
/// In a turn, in ascending order, each agent that has not ended and has something pending makes one
/// event: it takes from each sender what is pending, at most 64 messages. A round ends with a turn
/// that takes nothing, or with its 32nd turn. Playing stops when, after the start or a round, all agents
/// have ended, the deliveries are at least `budget`, or the round had no event. So there are at most
/// `budget` rounds. The budget must be at most 10,000,000. An agent passes the gate when it is
/// looked at and something may wait for it.
///
/// # Errors
///
/// [`NoMemory`] if memory runs out.
pub fn play_out_logged<G: Gate>(
    alloc: Global,
    gate: &G,
    problem: &Problem,
    start: &Start,
    budget: u64,
    certified: bool,
) -> Result<PlayedOut, NoMemory>
    requires start { IsStartFor problem.now start.now }
    requires budget { budget ≤ budget_limit }
    ensures { IfOk result (HavePlayedOut budget (agents_of problem.now start.now) certified) }
{
    problem_is_whole(problem);
    let mut state = CoreState::start(alloc, problem, start)?;
    let mut notes = notes_if(alloc, certified, problem, &state)?;
    play_sprints(alloc, gate, &mut state, &mut notes, budget)?;
    let log = log_of(alloc, notes)?;
    let outcome = outcome_of(alloc, state)?;
    Ok(PlayedOut { outcome, log })
}

/// The outcome of agents that are played as [`play_out_logged`] plays them, without a log.
///
/// # Errors
///
/// [`NoMemory`] if memory runs out.
pub fn play_out<G: Gate>(
    alloc: Global,
    gate: &G,
    problem: &Problem,
    start: &Start,
    budget: u64,
) -> Result<Outcome, NoMemory>
    requires start { IsStartFor problem.now start.now }
    requires budget { budget ≤ budget_limit }
    ensures run { IfOk result (HaveRun budget (agents_of problem.now start.now)) }
    ensures rounds { IfOk result (HaveDulyRun budget (agents_of problem.now start.now)) }
{
    let played = play_out_logged(alloc, gate, problem, start, budget, false)?;
    Ok(played.outcome)
}
