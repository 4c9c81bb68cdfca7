//! What the head of a link does.

ghost use Rattle.std.specs.Prelude.{◌≡◌, ◌+◌, ◌<◌, ◌≤◌, [], length, true, false};
ghost use Rattle.std.specs.Vec.{vec_len, vec_capacity};
ghost use Rattle.fifo_links.specs.Slots.{ring_slots};
ghost use Rattle.fifo_links.specs.Link.{taken_from, known_to, HasTaken, SameHead};

use super::{LinkHead, SLOTS};

impl<T: Send + Drop> LinkHead<T> {
    /// Whether the head finds nothing in the ring. Nothing is taken. From then on the head knows of
    /// what it found. A tail in another thread may send at any time. It allocates no memory.
    pub fn is_empty(&mut self) -> bool
        ensures end { SameHead self.old self.new }
        ensures taken { taken_from self.new ≡ taken_from self.old }
        ensures known { length (known_to self.old) ≤ length (known_to self.new) }
        ensures none { result ≡ true → known_to self.new ≡ [] }
        ensures some { result ≡ false → 0 < length (known_to self.new) }
    {
        self.ring.slots() == 0
    }

    /// How many items the head knows to be in the ring. It does not look for others.
    pub fn known(&self) -> usize
        ensures { result ≡ length (known_to self.now) }
    {
        self.ring.cached_slots()
    }

    /// Takes what it finds in the ring, oldest first, at most 64 items, and appends it to `into`,
    /// which must have room for 64 more. Returns how many items it took. It takes at least the
    /// items that it knew of, so it returns 0 only if it knew of none. It allocates no memory.
    #[tactic(auto, using(crate::proofs::TakingLaws::taking_none, crate::proofs::TakingLaws::taking_more, crate::proofs::TakingLaws::taking_empty, crate::proofs::TakingLaws::taking_all))]
    pub fn take_all(&mut self, into: &mut Vec<T>) -> u32
        requires room { vec_len into.old + ring_slots ≤ vec_capacity into.old }
        ensures end { SameHead self.old self.new }
        ensures taken { HasTaken self.old into.old.items result self.new into.new.items }
        ensures capacity { vec_capacity into.new ≡ vec_capacity into.old }
    {
        let mut count = 0;
        for _ in 0..SLOTS {
            match self.ring.pop() {
                Ok(item) => into.push_reserved(item),
                Err(_) => return count,
            }
            count += 1;
        }
        count
    }
}
