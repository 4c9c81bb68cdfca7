//! What the tail of a link does.

ghost use Rattle.std.specs.Prelude.{◌≡◌, ◌≢◌, ◌+◌, ◌<◌, ◌≤◌, ◌⊎◌, [], ◌∷◌, ◌++◌, length, IsOk, OnOk, IfErr};
ghost use Rattle.fifo_links.specs.Link.{sent_on, backlog_of, entered_by, room_of, SameTail};

use super::LinkTail;

impl<T: Send + Drop> LinkTail<T> {
    /// Sends an item. Items of the backlog enter the ring first, while it has free slots. Then the
    /// item enters the ring, or joins the backlog if the ring is full.
    ///
    /// The item is returned only if memory runs out, and then nothing was sent. If the backlog is
    /// empty and the ring is known to have a free slot, the call succeeds and allocates no memory.
    pub fn push(&mut self, item: T) -> Result<(), T>
        ensures end { SameTail self.old self.new }
        ensures sent { OnOk result (sent_on self.new ≡ sent_on self.old ++ item ∷ []) }
        ensures refused { IfErr result (λ back. (back ≡ item) × (sent_on self.new ≡ sent_on self.old)) }
        ensures full { (backlog_of self.new ≡ []) ⊎ (room_of self.new ≡ 0) }
        ensures succeeds { backlog_of self.old ≡ [] → 0 < room_of self.old → IsOk result }
    {
        self.refill();
        if self.backlog.is_empty() && !self.ring.is_full() {
            self.ring.push_reserved(item);
            return Ok(());
        }
        self.backlog
            .push_back(item)
            .map_err(|refused| refused.value)
    }

    /// Moves items from the backlog into the ring while it has free slots.
    pub(super) fn refill(&mut self)
        ensures end { SameTail self.old self.new }
        ensures sent { sent_on self.new ≡ sent_on self.old }
        ensures full { (backlog_of self.new ≡ []) ⊎ (room_of self.new ≡ 0) }
        ensures filled { room_of self.old + length (entered_by self.old) ≤ room_of self.new + length (entered_by self.new) }
        ensures kept { backlog_of self.old ≡ [] → (backlog_of self.new ≡ []) × (room_of self.old ≤ room_of self.new) }
    {
        while !self.backlog.is_empty() && !self.ring.is_full() {
            self.advance();
        }
    }

    /// Moves the oldest item of the backlog into the ring.
    fn advance(&mut self)
        requires some { backlog_of self.old ≢ [] }
        requires room { 0 < room_of self.old }
        ensures end { SameTail self.old self.new }
        ensures sent { sent_on self.new ≡ sent_on self.old }
        ensures shorter { length (backlog_of self.new) + 1 ≡ length (backlog_of self.old) }
        ensures filled { room_of self.old + length (entered_by self.old) ≡ room_of self.new + length (entered_by self.new) }
    {
        if let Some(item) = self.backlog.pop_front() {
            self.ring.push_reserved(item);
        }
    }
}
