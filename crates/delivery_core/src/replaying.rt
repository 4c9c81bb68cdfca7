//! Replaying a list of events.

ghost use Rattle.std.specs.Prelude.{◌≡◌, length, IfOk};
ghost use Rattle.delivery_core.specs.Agents.{IsStartFor, network_of};
ghost use Rattle.delivery_core.specs.Faults.{Replays};

use crate::start::Start;
use crate::state::CoreState;
use dcop_base::{NoMemory, Problem};
use protocol_steps::{EventFault, EventList};
use std::alloc::Global;

/// Why a replay has failed.
#[derive(Clone, Copy, Debug, PartialEq, Eq)]
pub enum ReplayFault {
    /// An event is not lawful; those before it are a run.
    BadEvent {
        /// Its number, counted from 1.
        at: u64,
        /// Its fault.
        fault: EventFault,
    },
    /// Memory ran out.
    NoMemory,
}

impl From<NoMemory> for ReplayFault {
    ghost use Rattle.std.specs.Prelude.{◌≡◌};
    ghost use Rattle.delivery_core.specs.declared.replaying.ReplayFault.TheVariants.{NoMemory as no_memory};

    ghost from_gives = { λ _ e. e ≡ no_memory };

    fn from(_refused: NoMemory) -> Self {
        ReplayFault::NoMemory
    }
}

/// Runs these events from the start state, and returns the network state at their end. The tree of
/// a start must be a pseudotree of the problem, and linked: each variable except the root is a
/// neighbour of its parent. The requested error must be at most 2^62.
///
/// # Errors
///
/// [`ReplayFault::BadEvent`] only if the events are not a run: it has the number of the first event
/// that is not lawful, counted from 1, and the fault of that event. [`ReplayFault::NoMemory`] if
/// memory runs out.
pub fn replay(
    alloc: Global,
    problem: &Problem,
    start: Start,
    events: &EventList,
) -> Result<CoreState, ReplayFault>
    requires start { IsStartFor problem.now start }
    ensures end { Replays (network_of problem.now start) events.now result }
    ensures size { IfOk result (λ state. length state.seats ≡ length problem.now.sizes) }
{
    let mut state = CoreState::start(alloc, problem, &start)?;
    for (at, event) in events.as_slice().iter().enumerate() {
        if let Some(fault) = state.happen(alloc, event)? {
            return Err(ReplayFault::BadEvent {
                at: at as u64 + 1,
                fault,
            });
        }
    }
    Ok(state)
}
