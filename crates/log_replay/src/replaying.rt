//! Replaying a log.

ghost use Rattle.std.specs.Prelude.{◌≡◌, ◌<◌, ◌≤◌, length, IfOk};
ghost use Rattle.std.specs.List.{All};
ghost use Rattle.dcop_base.specs.Limits.{amount_limit, count_limit};
ghost use Rattle.run_log.specs.Logs.{event_of};
ghost use Rattle.delivery_core.specs.Agents.{IsStartFor, network_of};
ghost use Rattle.delivery_core.specs.Shown.{IsSomeCore};
ghost use Rattle.log_replay.specs.Queues.{stamp_by};
ghost use Rattle.log_replay.specs.Replays.{ReplaysLog};
ghost use Rattle.log_replay.specs.Steps.{Plays, Follows};

use crate::fault::{LogFault, WrongStamp};
use crate::stamps::Stamps;
use crate::wrong::{Moment, stamp_fault};
use dcop_base::{NoMemory, Problem, Sequence};
use delivery_core::{CoreState, Start};
use protocol_steps::Event;
use run_log::LogEvent;
use std::alloc::Global;

/// An event of a log as one of a run.
fn event_of(alloc: Global, event: &LogEvent) -> Result<Event, NoMemory>
    ensures { IfOk result (λ plain. plain ≡ event_of event.now) }
{
    Ok(Event {
        agent: event.agent,
        takes: Sequence::from_vec(Vec::from_slice(alloc, event.takes.as_slice())?),
    })
}

/// Plays the event with this number.
fn play(alloc: Global, core: &mut CoreState, number: u64, event: &LogEvent) -> Result<(), LogFault>
    requires { IsSomeCore core.old }
    ensures { Plays core.old number event.now core.new result }
{
    let plain = event_of(alloc, event)?;
    match core.happen(alloc, &plain)? {
        Some(fault) => Err(LogFault::BadEvent { at: number, fault }),
        None => Ok(()),
    }
}

/// What is wrong with the stamp of the event with this number, which has led to this core state. If
/// the stamp is right, the stamps of the messages sent in the event are added.
fn follow(
    stamps: &mut Stamps,
    core: &CoreState,
    number: u64,
    before: Option<Moment>,
    event: &LogEvent,
) -> Result<Option<WrongStamp>, NoMemory>
    requires agent { event.now.agent < length stamps.old.last }
    requires row { event.now.agent < length stamps.old.rows }
    requires senders { All (λ t. t.from < length stamps.old.rows) event.now.takes }
    requires few { stamp_by stamps.old event.now.agent event.now.takes ≤ count_limit }
    ensures { IfOk result (λ found.
        Follows core.now number before event.now stamps.old stamps.new found) }
{
    let right = stamps.take(event.agent, event.takes.as_slice());
    let found = stamp_fault(number, right, before, event);
    if found.is_none() {
        stamps.send(core, event.agent, event.stamp)?;
    }
    Ok(found)
}

/// Replays a log from a start, and returns the network state at its end. If the start has a tree,
/// it is a linked pseudotree of the problem. An error of the start and each stamp are at most 2^62.
///
/// The time is that of the agents' activations; in addition, each activation goes once through the
/// links from its agent.
///
/// # Errors
///
/// [`LogFault::BadEvent`] if the events do not form a run, with the number, counted from 1, of the
/// first event that is not lawful, and its first fault. [`LogFault::BadStamp`] with the first wrong
/// stamp if they form a run and a stamp is wrong. [`LogFault::NoMemory`] if memory runs out.
pub fn replay_log(
    alloc: Global,
    problem: &Problem,
    start: &Start,
    log: &[LogEvent],
) -> Result<CoreState, LogFault>
    requires start { IsStartFor problem.now start.now }
    requires stamps { All (λ e. e.stamp ≤ amount_limit) log.now }
    ensures end { ReplaysLog (network_of problem.now start.now) log.now result }
    ensures size { IfOk result (λ core. length core.seats ≡ length problem.now.sizes) }
{
    let mut core = CoreState::start(alloc, problem, start)?;
    let mut stamps = Stamps::start(alloc, problem, &core)?;
    let mut before = None;
    let mut found = None;
    for (at, event) in log.iter().enumerate() {
        let number = at as u64 + 1;
        play(alloc, &mut core, number, event)?;
        if found.is_none() {
            found = follow(&mut stamps, &core, number, before, event)?;
        }
        before = Some(Moment::of(event));
    }
    match found {
        Some(wrong) => Err(LogFault::BadStamp(wrong)),
        None => Ok(core),
    }
}
