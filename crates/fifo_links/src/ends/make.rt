//! A new link.

ghost use Rattle.std.specs.Prelude.{◌≡◌, [], IfOk};
ghost use Rattle.fifo_links.specs.Slots.{ring_slots};
ghost use Rattle.fifo_links.specs.Link.{AreEnds, sent_on, backlog_of, room_of, taken_from, known_to};

use super::{LinkHead, LinkTail, SLOTS};
use crate::memory::NoMemory;
use rtrb::RingBuffer;
use std::alloc::Global;
use std::collections::VecDeque;

/// Makes a link on which nothing was sent, and returns its two ends. It allocates the ring, and no
/// memory for a backlog.
///
/// # Errors
///
/// [`NoMemory`] if memory runs out.
pub fn link<T: Send + Drop>(alloc: Global) -> Result<(LinkTail<T>, LinkHead<T>), NoMemory>
    ensures ends { IfOk result (λ l. AreEnds l.0 l.1) }
    ensures sent { IfOk result (λ l. sent_on l.0 ≡ []) }
    ensures backlog { IfOk result (λ l. backlog_of l.0 ≡ []) }
    ensures room { IfOk result (λ l. room_of l.0 ≡ ring_slots) }
    ensures taken { IfOk result (λ l. taken_from l.1 ≡ []) }
    ensures known { IfOk result (λ l. known_to l.1 ≡ []) }
{
    let (producer, consumer) = RingBuffer::new(alloc, SLOTS)?;
    let tail = LinkTail {
        ring: producer,
        backlog: VecDeque::new(alloc),
    };
    Ok((tail, LinkHead { ring: consumer }))
}
