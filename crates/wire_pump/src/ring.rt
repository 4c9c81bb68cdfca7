//! A ring of bytes, with both of its ends.

ghost use Rattle.std.specs.Prelude.{◌≡◌, ℕ, ◌+◌, ◌≤◌, ◌<◌, [], ◌++◌, length, take, drop, IfOk};
ghost use mathlib.Core.List.{IsPrefix};
ghost use Rattle.rtrb.specs.Ring.{IsPair, producer_capacity};

use dcop_base::NoMemory;
use rtrb::{Consumer, Producer, RingBuffer};
use std::alloc::Global;

/// How many bytes a ring can hold.
pub(crate) const RING_BYTES: usize = 4096;

/// A ring of bytes. It has both ends, so looking at the other end shows what the ring holds.
#[derive(Drop)]
pub(crate) struct Ring {
    pub(crate) tail: Producer<u8>,
    pub(crate) head: Consumer<u8>,
    ghost pair: { IsPair tail head },
    ghost tail_slots: { producer_capacity tail ≡ 4096 },
}

impl Ring {
    ghost use Rattle.wire_pump.specs.Ring.{put_into, taken_from, known_in, free_in, ring_bytes, IsPoured};

    /// An empty ring. It takes memory.
    pub(crate) fn new(alloc: Global) -> Result<Ring, NoMemory>
        ensures empty { IfOk result (λ r. (put_into r ≡ []) × (taken_from r ≡ []) × (known_in r ≡ [])) }
        ensures free { IfOk result (λ r. free_in r ≡ ring_bytes) }
    {
        let (tail, head) = RingBuffer::new(alloc, RING_BYTES)?;
        Ok(Ring { tail, head })
    }

    /// Puts bytes in. As many slots are known to be free.
    pub(crate) fn put(&mut self, bytes: &[u8])
        requires { length bytes.now ≤ free_in self.old }
        ensures put { put_into self.new ≡ put_into self.old ++ bytes.now }
        ensures same { (taken_from self.new ≡ taken_from self.old) × (known_in self.new ≡ known_in self.old) }
        ensures free { free_in self.old ≤ free_in self.new + length bytes.now }
    {
        let _fits = self.tail.push_entire_slice(bytes);
    }

    /// Takes the oldest bytes out, as many as there are and as fit in `into`. The answer is how
    /// many. Nothing else of `into` is written.
    pub(crate) fn take(&mut self, into: &mut [u8]) -> usize
        ensures within { result ≤ length into.old }
        ensures length { length into.new ≡ length into.old }
        ensures rest { drop result into.new ≡ drop result into.old }
        ensures taken { taken_from self.new ≡ taken_from self.old ++ take result into.new }
        ensures known { IsPrefix (known_in self.old) (take result into.new ++ known_in self.new) }
        ensures none { result < length into.old → known_in self.new ≡ [] }
        ensures same { (put_into self.new ≡ put_into self.old) × (free_in self.new ≡ free_in self.old) }
    {
        self.head.pop_partial_slice(into)
    }

    /// Makes both ends know all that the ring holds. The answer is the number of free slots.
    pub(crate) fn look(&mut self) -> usize
        ensures holds { taken_from self.new ++ known_in self.new ≡ put_into self.new }
        ensures same { (taken_from self.new ≡ taken_from self.old) × (put_into self.new ≡ put_into self.old) }
        ensures free { result ≤ free_in self.new }
        ensures all { result + length (known_in self.new) ≡ ring_bytes }
    {
        let free = self.tail.slots_beside(&mut self.head);
        self.head.slots_beside(&mut self.tail);
        free
    }

    /// Moves what this ring holds into another one, as far as that has room. The answer is how many
    /// more bytes may be put into this ring so that both together hold no more than one can.
    pub(crate) fn pour(&mut self, to: &mut Ring) -> usize
        ensures same { (put_into self.new ≡ put_into self.old) × (taken_from to.new ≡ taken_from to.old) }
        ensures free { result ≤ free_in self.new }
        ensures poured { (room : ℕ) → IsPoured room self.old to.old → IsPoured result self.new to.new }
        ensures whole { (room : ℕ) → IsPoured room self.old to.old
            → (taken_from to.new ++ known_in to.new ≡ put_into self.new)
            × (result + length (known_in to.new) ≡ ring_bytes) }
    {
        self.look();
        let free = to.look();
        let mut block = [0; RING_BYTES];
        let count = self.take(&mut block[..free]);
        to.put(&block[..count]);
        let room = to.look();
        room.min(self.look())
    }
}
