//! The stamps of one agent's messages that wait for another.

ghost use Rattle.std.specs.Prelude.{◌≡◌, ◌-◌, ◌++◌, take, length, replicate, OnOk, max};
ghost use Rattle.std.specs.List.{fold};
ghost use Rattle.log_replay.specs.Queues.{new_queue, without_next};

use dcop_base::{NoMemory, VarId};
use std::alloc::Global;
use std::collections::VecDeque;
use std::marker::Model;

/// The stamps of one agent's messages that wait for another, in order.
#[derive(Drop)]
pub(crate) struct Queue {
    to: VarId,
    stamps: VecDeque<u64>,
}

impl Model for Queue {
    ghost use Rattle.log_replay.specs.Queues.{QueueView};

    ghost Value = { QueueView };

    ghost view = { λ q. record { to = q.to; stamps = q.stamps.items } };
}

impl Queue {
    /// A queue for this receiver, in which nothing waits.
    pub(crate) fn new(alloc: Global, to: VarId) -> Queue
        ensures { result ≡ new_queue to }
    {
        Queue {
            to,
            stamps: VecDeque::new(alloc),
        }
    }

    /// The receiver.
    pub(crate) fn to(&self) -> VarId
        ensures { result ≡ self.now.to }
    {
        self.to
    }

    /// Removes the next `count` stamps, and returns the greatest of them, or 0 if there is none.
    pub(crate) fn take_off(&mut self, count: u32) -> u64
        ensures greatest { result ≡ fold max 0 (take count self.old.stamps) }
        ensures rest { self.new ≡ without_next count self.old }
    {
        let mut greatest: u64 = 0;
        for _ in 0..count {
            if let Some(stamp) = self.stamps.pop_front() {
                greatest = greatest.max(stamp);
            }
        }
        greatest
    }

    /// Adds a stamp after the others until there are `count`.
    pub(crate) fn fill(&mut self, count: u64, stamp: u64) -> Result<(), NoMemory>
        ensures { OnOk result (self.new ≡ record self.old {
          stamps = self.old.stamps ++ replicate (count - length self.old.stamps) stamp;
        }) }
    {
        let missing = count.saturating_sub(self.stamps.len() as u64);
        for _ in 0..missing {
            self.stamps.push_back(stamp)?;
        }
        Ok(())
    }
}
