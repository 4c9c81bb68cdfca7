//! The two ends of a link.

ghost use Rattle.std.specs.Prelude.{◌≡◌};
ghost use Rattle.rtrb.specs.Ring.{producer_capacity, consumer_capacity};
ghost use Rattle.fifo_links.specs.Slots.{ring_slots};

mod make;
mod send;
mod settling;
mod take;

pub use make::link;
use rtrb::{Consumer, Producer};
pub use settling::settle;
use std::collections::VecDeque;

/// How many items the ring of a link holds, and so the most that one `take_all` takes.
pub const SLOTS: usize = 64;

/// The number of slots in the code is that of the definitions.
pub fn slots_agree()
    ensures { SLOTS ≡ ring_slots }
{}

/// The end of a link from which items are sent.
#[derive(Drop)]
pub struct LinkTail<T: Send + Drop> {
    ring: Producer<T>,
    backlog: VecDeque<T>,
    ghost slots: { producer_capacity ring ≡ ring_slots },
}

/// The end of a link at which items are taken.
#[derive(Drop)]
pub struct LinkHead<T: Send + Drop> {
    ring: Consumer<T>,
    ghost slots: { consumer_capacity ring ≡ ring_slots },
}
