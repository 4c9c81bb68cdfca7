//! Both ends of a link in one thread.

ghost use Rattle.std.specs.Prelude.{◌≡◌, length};
ghost use Rattle.fifo_links.specs.Link.{AreEnds, sent_on, taken_from, known_to, IsSettled, SameTail, SameHead};

use super::{LinkHead, LinkTail};

/// Moves items from the backlog into the ring while it has free slots, and returns how many items
/// are in the ring. After the call, what was taken, the ring and the backlog are, in this order,
/// all that was sent. The backlog is empty or the ring is full. The head knows of every item in the
/// ring, so the next `take_all` takes them all. It allocates no memory.
pub fn settle<T: Send + Drop>(tail: &mut LinkTail<T>, head: &mut LinkHead<T>) -> u32
    requires ends { AreEnds tail.old head.old }
    ensures tail { SameTail tail.old tail.new }
    ensures head { SameHead head.old head.new }
    ensures sent { sent_on tail.new ≡ sent_on tail.old }
    ensures taken { taken_from head.new ≡ taken_from head.old }
    ensures settled { IsSettled tail.new head.new }
    ensures count { result ≡ length (known_to head.new) }
{
    if !tail.backlog.is_empty() {
        tail.ring.slots_beside(&mut head.ring);
        tail.refill();
    }
    head.ring.slots_beside(&mut tail.ring) as u32
}
