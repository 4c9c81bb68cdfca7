//! The rows of pumps. Each gives its count, or `None` if the run did not go as the row says.

ghost use Rattle.std.specs.Prelude.{IsSome};

use crate::host::Host;
use crate::wires::dialers::failing_at;
use crate::wires::texts::{filled, mixed};
use futures::task::Poll;
use futures::test::MockTask;
use wire_pump::{Dialer, Pump, Pumped, SteadyDialer, Wire, pump_by};

/// The most polls that a pump may take to its end.
const MOST_POLLS: u64 = 20_000;

/// How many times a pump that waits for good is polled.
const WAITS: u64 = 100;

/// How many bytes go each way in the longest rows.
const MANY: usize = 1_048_576;

/// Ten thousand bytes there and nine thousand back, polled by hand: how many polls it took.
pub(crate) fn both_ways<R: Host>(rt: &R) -> Option<u64> {
    let alloc = rt.alloc();
    let (first, second) = SteadyDialer::new().pair(rt, alloc).ok()?;
    let (there, back) = (filled(alloc, 1, 10_000)?, filled(alloc, 2, 9_000)?);
    let pump = Pump::new(alloc, first, second, there, back).ok()?;
    let (polls, pumped) = poll_to_end(&MockTask::new(rt).ok()?, pump)?;
    if pumped.at_second != filled(alloc, 1, 10_000)?
        || pumped.at_first != filled(alloc, 2, 9_000)?
    {
        return None;
    }
    Some(polls)
}

// Polls until the pump is ready. Gives how many polls that took and what the pump gave; `None` if
// it failed or took more than `MOST_POLLS`.
fn poll_to_end<W: Wire>(task: &MockTask, pump: Pump<W>) -> Option<(u64, Pumped<W>)>
    requires { IsSome pump.state }
{
    let mut pump = pump;
    for polls in 1..=MOST_POLLS {
        if let Poll::Ready(ended) = task.poll(&mut pump) {
            return Some((polls, ended.ok()?));
        }
    }
    None
}

/// Two ends of two pairs, polled by hand: how many polls left the task waiting and woken.
pub(crate) fn unjoined_ends<R: Host>(rt: &R) -> Option<u64> {
    let alloc = rt.alloc();
    let mut dialer = SteadyDialer::new();
    let (first, _) = dialer.pair(rt, alloc).ok()?;
    let (_, second) = dialer.pair(rt, alloc).ok()?;
    let (there, back) = (filled(alloc, 1, 10)?, filled(alloc, 2, 10)?);
    let pump = Pump::new(alloc, first, second, there, back).ok()?;
    let task = MockTask::new(rt).ok()?;
    if !waits_for_good(&task, pump) {
        return None;
    }
    Some(WAITS)
}

// Whether each of `WAITS` polls leaves the pump waiting and the task woken.
fn waits_for_good<W: Wire>(task: &MockTask, pump: Pump<W>) -> bool
    requires { IsSome pump.state }
{
    let mut pump = pump;
    for _ in 0..WAITS {
        if task.poll(&mut pump).is_ready() || !task.is_woken() {
            return false;
        }
    }
    true
}

/// How many polls of this end a run without faults makes. For each of them there is a run in which
/// it fails, and each such run ends in the fault of the pump.
pub(crate) fn failing_polls<R: Host>(rt: &R, first_end: bool) -> Option<u64> {
    for poll in 0..MOST_POLLS {
        if ends_with_failing(rt, first_end, poll)? {
            return Some(poll);
        }
    }
    None
}

// Whether the pump ends if this poll of this end fails; `None` if memory runs out, or bytes arrived
// that were not sent.
fn ends_with_failing<R: Host>(rt: &R, first_end: bool, poll: u64) -> Option<bool> {
    let alloc = rt.alloc();
    let mut dialer = failing_at(alloc, first_end, poll).ok()?;
    let (first, second) = dialer.pair(rt, alloc).ok()?;
    let (there, back) = (mixed(alloc, 1, 10_000)?, mixed(alloc, 2, 9_000)?);
    let Ok(pumped) = pump_by(rt, alloc, &mut dialer, first, second, there, back).ok()? else {
        return Some(false);
    };
    if pumped.at_second != mixed(alloc, 1, 10_000)? || pumped.at_first != mixed(alloc, 2, 9_000)? {
        return None;
    }
    Some(true)
}

/// A mebibyte each way over wires of this dialer: how many bytes arrived at each end, if they are
/// those that were sent.
pub(crate) fn mebibyte<R, D>(rt: &R, dialer: &mut D) -> Option<u64>
where
    R: Host,
    D: Dialer,
{
    let alloc = rt.alloc();
    let (first, second) = dialer.pair(rt, alloc).ok()?;
    let (there, back) = (mixed(alloc, 1, MANY)?, mixed(alloc, 2, MANY)?);
    let pumped = pump_by(rt, alloc, dialer, first, second, there, back)
        .ok()?
        .ok()?;
    if pumped.at_second != mixed(alloc, 1, MANY)? || pumped.at_first != mixed(alloc, 2, MANY)? {
        return None;
    }
    Some(MANY as u64)
}
