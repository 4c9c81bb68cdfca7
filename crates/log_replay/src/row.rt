//! The stamps of one agent's messages that wait, by receiver.

ghost use Rattle.std.specs.Prelude.{◌≡◌, map, take, IfOk, OnOk, max, ◌==◌};
ghost use Rattle.std.specs.List.{position, fold};
ghost use Rattle.log_replay.specs.Queues.{new_queue, queue_to, stamps_of, edit_queue, without_next, filled};

use crate::queue::Queue;
use dcop_base::{NoMemory, VarId};
use delivery_core::CoreState;
use std::alloc::Global;
use std::marker::Model;

/// The stamps of one agent's messages that wait, by receiver.
#[derive(Drop)]
pub(crate) struct Row {
    queues: Vec<Queue>,
}

impl Model for Row {
    ghost use Rattle.std.specs.Prelude.{List};
    ghost use Rattle.log_replay.specs.Queues.{QueueView};

    ghost Value = { List QueueView };

    ghost view = { λ r. r.queues.items };
}

/// A queue for each of these receivers, in which nothing waits.
fn new_queues(alloc: Global, receivers: &[VarId]) -> Result<Vec<Queue>, NoMemory>
    ensures { IfOk result (λ queues. queues.items ≡ map new_queue receivers.now) }
{
    let mut queues = Vec::with_capacity(alloc, receivers.len())?;
    for to in receivers {
        queues.push(Queue::new(alloc, *to))?;
    }
    Ok(queues)
}

/// The position of the queue for this receiver.
fn place_of(queues: &[Queue], to: VarId) -> Option<usize>
    ensures { result ≡ position (λ q. q.to == to) queues.now }
{
    queues.iter().position(|queue| queue.to() == to)
}

/// Removes the next `count` stamps for this receiver, and returns the greatest of them, or 0 if
/// there is none.
fn take_from(queues: &mut [Queue], to: VarId, count: u32) -> u64
    ensures greatest { result ≡ fold max 0 (take count (stamps_of (queue_to to queues.old))) }
    ensures rest { queues.new ≡ edit_queue to (without_next count) queues.old }
{
    match place_of(queues, to) {
        Some(at) => queues[at].take_off(count),
        None => 0,
    }
}

/// Adds a stamp of this agent after the others in each queue, until there are as many as its
/// messages that wait.
fn fill_all(queues: &mut [Queue], core: &CoreState, from: VarId, stamp: u64) -> Result<(), NoMemory>
    ensures { OnOk result (queues.new ≡ map (filled core.now from stamp) queues.old) }
{
    for queue in queues.iter_mut() {
        queue.fill(core.waiting(queue.to(), from), stamp)?;
    }
    Ok(())
}

impl Row {
    /// The queues for these receivers, in which nothing waits.
    pub(crate) fn new(alloc: Global, receivers: &[VarId]) -> Result<Row, NoMemory>
        ensures { IfOk result (λ row. row ≡ map new_queue receivers.now) }
    {
        Ok(Row {
            queues: new_queues(alloc, receivers)?,
        })
    }

    /// Removes the next `count` stamps for this receiver, and returns the greatest of them, or 0 if
    /// there is none.
    pub(crate) fn take_off(&mut self, to: VarId, count: u32) -> u64
        ensures greatest { result ≡ fold max 0 (take count (stamps_of (queue_to to self.old))) }
        ensures rest { self.new ≡ edit_queue to (without_next count) self.old }
    {
        take_from(self.queues.as_mut_slice(), to, count)
    }

    /// Adds a stamp of this agent after the others for each receiver, until there are as many as
    /// its messages that wait for the receiver.
    pub(crate) fn fill(&mut self, core: &CoreState, from: VarId, stamp: u64) -> Result<(), NoMemory>
        ensures { OnOk result (self.new ≡ map (filled core.now from stamp) self.old) }
    {
        fill_all(self.queues.as_mut_slice(), core, from, stamp)
    }
}
