//! The events of a log that are replayed.

ghost use Rattle.std.specs.Prelude.{◌≡◌, IfOk};
ghost use Rattle.run_log.specs.Logs.{event_of, events_of};
ghost use Rattle.solve_printed.specs.Replaying.{log_up_to};

use dcop_base::NoMemory;
use protocol_steps::{Event, EventList, TakeList};
use run_log::LogEvent;
use std::alloc::Global;

/// The first `after` events of a log; all events if it has no more, or if no number is given.
pub fn log_up_to(log: &[LogEvent], after: Option<u64>) -> &[LogEvent]
    ensures { result.now ≡ log_up_to after log.now }
{
    match after {
        Some(after) if after < log.len() as u64 => &log[..after as usize],
        _ => log,
    }
}

/// The events of a log as events of a run.
pub(crate) fn events_of(alloc: Global, log: &[LogEvent]) -> Result<EventList, NoMemory>
    ensures { IfOk result (λ events. events ≡ events_of log.now) }
{
    let mut events = Vec::with_capacity(alloc, log.len())?;
    for event in log {
        events.push(event_of(alloc, event)?)?;
    }
    Ok(EventList::from_vec(events))
}

/// An event of a log as an event of a run.
fn event_of(alloc: Global, event: &LogEvent) -> Result<Event, NoMemory>
    ensures { IfOk result (λ plain. plain ≡ event_of event.now) }
{
    Ok(Event {
        agent: event.agent,
        takes: TakeList::from_vec(Vec::from_slice(alloc, event.takes.as_slice())?),
    })
}
