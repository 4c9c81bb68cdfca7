//! Playing a log, and writing what happens.

ghost use Rattle.std.specs.Prelude.{◌≡◌, ◌<◌, ◌≤◌, ◌+◌, ◌∷◌, [], ◌++◌, length, codes, None, OnOk, IfOk};
ghost use Rattle.std.specs.List.{flat_map};
ghost use Rattle.std.specs.Fmt.{decimal};
ghost use Rattle.std.specs.String.{string_bytes};
ghost use Rattle.dcop_base.specs.Limits.{variable_limit};
ghost use Rattle.problem_text.specs.Canonical.{line};
ghost use Rattle.run_log.specs.Logs.{event_of};
ghost use Rattle.delivery_core.specs.Agents.{IsStartFor, network_of};
ghost use Rattle.delivery_core.specs.Shown.{IsCore, IsSomeCore};
ghost use Rattle.trace_text.specs.Trace.{Traces, start_lines};
ghost use Rattle.trace_text.specs.Told.{PlaysEvent, TellsOne, TellsEvent};

use crate::lines::{write_event, write_start};
use dcop_base::{Bytes, NoMemory, Problem, VarId};
use delivery_core::{CoreState, Exchange, ReplayFault, Start, first_parcels};
use problem_text::Names;
use protocol_steps::{Event, EventFault, TakeList};
use run_log::LogEvent;
use std::alloc::Global;

/// Plays the events of a log from a start, and gives their text from the event with number `from`
/// on. Events count from 1; with 0 the starts of all agents are written first.
///
/// A tree of the start is a pseudotree of the problem, and linked; an error is at most 2^62. Stamps
/// are written, but not checked. The time is that of the agents' activations and of writing the
/// text.
///
/// # Errors
///
/// [`ReplayFault::BadEvent`] exactly if the events are no run: the number of the first event that
/// is not lawful, counted from 1, and its first fault. [`ReplayFault::NoMemory`] if memory runs
/// out.
pub fn write_trace(
    alloc: Global,
    problem: &Problem,
    start: &Start,
    names: &Names,
    from: u64,
    log: &[LogEvent],
) -> Result<Bytes, ReplayFault>
    requires start { IsStartFor problem.now start.now }
    requires named { length names.now ≡ length problem.now.sizes }
    ensures { Traces names.now from (network_of problem.now start.now) log.now result }
{
    let mut core = CoreState::start(alloc, problem, start)?;
    let mut text = String::new(alloc);
    write_head(&mut text, log.len() as u64)?;
    if from == 0 {
        write_starts(alloc, &mut text, names, &core, problem, start)?;
    }
    write_events(alloc, &mut text, names, &mut core, from, log)?;
    write_end(&mut text)?;
    Ok(Bytes::from_vec(text.into_bytes()))
}

/// Writes how many events the log has.
fn write_head(text: &mut String, events: u64) -> Result<(), NoMemory>
    ensures { OnOk result (string_bytes text.new ≡ string_bytes text.old
        ++ flat_map line
        ((codes "status" ∷ codes "trace" ∷ []) ∷ (codes "events" ∷ decimal events ∷ []) ∷ [])) }
{
    Ok(write!(text, "status trace\nevents {events}\n")?)
}

fn write_end(text: &mut String) -> Result<(), NoMemory>
    ensures { OnOk result (string_bytes text.new ≡ string_bytes text.old
        ++ flat_map line ((codes "end" ∷ []) ∷ [])) }
{
    Ok(text.push_str("end\n")?)
}

/// Writes the starts of all agents, in order, in the core state in which all have started.
fn write_starts(
    alloc: Global,
    text: &mut String,
    names: &Names,
    core: &CoreState,
    problem: &Problem,
    start: &Start,
) -> Result<(), NoMemory>
    requires start { IsStartFor problem.now start.now }
    requires core { IsCore problem.now (network_of problem.now start.now) core.now }
    requires few { length core.now.seats ≤ variable_limit }
    ensures { OnOk result (string_bytes text.new ≡ string_bytes text.old
        ++ flat_map line (start_lines names.now (network_of problem.now start.now))) }
{
    let parcels = first_parcels(alloc, problem, start)?;
    for (me, sent) in parcels.as_slice().iter().enumerate() {
        write_start(text, names, core, VarId(me as u32), sent.as_slice())?;
    }
    Ok(())
}

/// Plays the events of a log, and writes those with a number from `from` on.
fn write_events(
    alloc: Global,
    text: &mut String,
    names: &Names,
    core: &mut CoreState,
    from: u64,
    log: &[LogEvent],
) -> Result<(), ReplayFault>
    requires { IsSomeCore core.old }
    ensures { TellsEvent names.now from log.now core.old
        (string_bytes text.old) (string_bytes text.new) result }
{
    let mut exchange = Exchange::new(alloc);
    for (at, event) in log.iter().enumerate() {
        let number = at as u64 + 1;
        let found = if number < from {
            play(alloc, core, event)?
        } else {
            tell(alloc, text, names, core, &mut exchange, number, event)?
        };
        if let Some(fault) = found {
            return Err(ReplayFault::BadEvent { at: number, fault });
        }
    }
    Ok(())
}

/// An event of a log, as an event of a run.
fn event_of(alloc: Global, event: &LogEvent) -> Result<Event, NoMemory>
    ensures { IfOk result (λ plain. plain ≡ event_of event.now) }
{
    Ok(Event {
        agent: event.agent,
        takes: TakeList::from_vec(Vec::from_slice(alloc, event.takes.as_slice())?),
    })
}

/// Plays an event of a log. `Some` exactly if it is not lawful, with its first fault.
fn play(
    alloc: Global,
    core: &mut CoreState,
    event: &LogEvent,
) -> Result<Option<EventFault>, NoMemory>
    requires { IsSomeCore core.old }
    ensures { IfOk result (PlaysEvent core.old event.now core.new) }
{
    let plain = event_of(alloc, event)?;
    core.happen(alloc, &plain)
}

/// Plays an event of a log, and writes it with this number. `Some` exactly if it is not lawful,
/// with its first fault.
fn tell(
    alloc: Global,
    text: &mut String,
    names: &Names,
    core: &mut CoreState,
    exchange: &mut Exchange,
    number: u64,
    event: &LogEvent,
) -> Result<Option<EventFault>, NoMemory>
    requires { IsSomeCore core.old }
    ensures plays { IfOk result (PlaysEvent core.old event.now core.new) }
    ensures tells { IfOk result (λ found. found ≡ None →
        TellsOne names.now core.old number event.now core.new
        (string_bytes text.old) (string_bytes text.new)) }
{
    let plain = event_of(alloc, event)?;
    let found = core.happen_telling(alloc, &plain, exchange)?;
    if found.is_none() {
        write_event(text, names, core, number, event, exchange)?;
    }
    Ok(found)
}
