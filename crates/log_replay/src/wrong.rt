//! Stamps of a log that are wrong.

ghost use Rattle.std.specs.Prelude.{◌≡◌, ◌||◌, ◌&&◌, ◌==◌, nat_lt, Some};
ghost use Rattle.log_replay.specs.Wrong.{moment_of, place_fault, stamp_fault};

use crate::fault::WrongStamp;
use dcop_base::VarId;
use run_log::LogEvent;

/// The position of an event in the order of a log: its stamp, and then its agent.
#[derive(Clone, Copy, Debug, PartialEq, Eq)]
pub(crate) struct Moment {
    agent: VarId,
    stamp: u64,
}

impl Moment {
    /// The position of an event.
    pub(crate) fn of(event: &LogEvent) -> Moment
        ensures { result ≡ moment_of event.now }
    {
        Moment {
            agent: event.agent,
            stamp: event.stamp,
        }
    }

    /// Whether it is before an event.
    fn is_before(self, event: &LogEvent) -> bool
        ensures { result ≡ (nat_lt self.stamp event.now.stamp || (self.stamp == event.now.stamp && nat_lt self.agent event.now.agent)) }
    {
        self.stamp < event.stamp || self.stamp == event.stamp && self.agent.0 < event.agent.0
    }
}

/// What is wrong with the position of the event with this number after this one.
fn behind(at: u64, before: Moment, event: &LogEvent) -> Option<WrongStamp>
    ensures { result ≡ place_fault at (Some before) event.now }
{
    let left = event.stamp;
    let right = before.stamp;
    if before.is_before(event) {
        return None;
    }
    Some(WrongStamp { at, left, right })
}

/// What is wrong with the position of the event with this number after the one before it.
fn place_fault(at: u64, before: Option<Moment>, event: &LogEvent) -> Option<WrongStamp>
    ensures { result ≡ place_fault at before event.now }
{
    match before {
        Some(before) => behind(at, before, event),
        None => None,
    }
}

/// What is wrong with the event with this number, given its right stamp: its stamp, or otherwise
/// its position after the one before it.
pub(crate) fn stamp_fault(
    at: u64,
    right: u64,
    before: Option<Moment>,
    event: &LogEvent,
) -> Option<WrongStamp>
    ensures { result ≡ stamp_fault at right before event.now }
{
    let left = event.stamp;
    if left != right {
        return Some(WrongStamp { at, left, right });
    }
    place_fault(at, before, event)
}
