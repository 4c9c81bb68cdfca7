//! Which events are lawful.

ghost use Rattle.std.specs.Prelude.{◌≡◌};
ghost use Rattle.delivery_core.specs.SeatEvents.{core_fault};

use crate::seat::Seat;
use letter_queues::form_of;
use protocol_steps::{Event, EventFault};

/// The first fault of an event; `None` if there is none.
pub(crate) fn fault_of(seats: &[Seat], event: &Event) -> Option<EventFault>
    ensures { result ≡ core_fault seats.now event.now }
{
    let takes = event.takes.as_slice();
    let agent = event.agent.0 as usize;
    if agent >= seats.len() {
        return Some(EventFault::Nobody);
    }
    let seat = &seats[agent];
    match form_of(seats.len(), seat.agent().ended(), takes) {
        Some(fault) => Some(fault),
        None => seat.inbox().short_of(takes),
    }
}
