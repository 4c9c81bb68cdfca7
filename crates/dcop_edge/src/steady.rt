//! A source and a sink in memory that never fail.

ghost use Rattle.std.specs.Prelude.{◌≡◌, ◌≤◌, true, false, [], ◌∷◌, ◌++◌, Some, IfOk, IfSome, length, take, drop, min, vec_len, vec_capacity, Ok, IsOk};
ghost use Rattle.dcop_edge.specs.Memory.{SteadyState, RoomState, kept_whole, held_within};
ghost use Rattle.dcop_edge.specs.Sink.{Adds};

use crate::counts::ReadCounts;
use crate::fault::{Failed, ReadFault};
use crate::kept::Kept;
use crate::sink::Sink;
use crate::source::Source;
use dcop_base::NoMemory;
use std::alloc::Global;
use std::marker::Model;

/// A source over bytes in memory that never fails.
#[derive(Drop)]
pub struct SteadySource {
    bytes: Vec<u8>,
    given: usize,
    gave: ReadCounts,
}

impl Model for SteadySource {
    ghost Value = { SteadyState };

    ghost view = { λ s. record { left = drop s.given s.bytes.items; gave = s.gave.counts } };

    ghost invariant = { λ s. s.given ≤ vec_len s.bytes };
}

impl SteadySource {
    /// A source that gives these bytes and never fails. Allocates nothing.
    pub fn new(bytes: Vec<u8>) -> Self
        ensures { result ≡ record { left = bytes.items; gave = [] } }
    {
        SteadySource {
            bytes,
            given: 0,
            gave: ReadCounts::new(),
        }
    }

    /// Counts one more read, which gave nothing.
    pub(crate) fn refuse(&mut self)
        ensures { self.new ≡ record self.old { gave = self.old.gave ++ 0 ∷ [] } }
    {
        self.gave = self.gave.and(0);
    }
}

impl Source for SteadySource {
    ghost left = { λ s. Some s.left };

    ghost faults = { λ _. 0 };

    ghost gave = { λ s. s.gave };

    fn read(&mut self, into: &mut [u8]) -> Result<usize, Failed> {
        let count = fill_front(into, &self.bytes[self.given..]);
        self.given += count;
        self.gave = self.gave.and(count);
        Ok(count)
    }

    fn read_behind(&mut self, bytes: &mut Vec<u8>, most: usize) -> Result<usize, ReadFault> {
        let left = &self.bytes[self.given..];
        let count = left.len().min(most);
        match bytes.extend_from_slice(&left[..count]) {
            Ok(()) => {
                self.given += count;
                self.gave = self.gave.and(count);
                Ok(count)
            }
            Err(refused) => {
                self.refuse();
                Err(ReadFault::from(refused))
            }
        }
    }
}

// Copies the front of `left` to the front of `into`, as much as fits, and returns the number of
// bytes.
fn fill_front(into: &mut [u8], left: &[u8]) -> usize
    ensures count { result ≡ min (length left.now) (length into.old) }
    ensures front { take result into.new ≡ take result left.now }
    ensures behind { drop result into.new ≡ drop result into.old }
{
    let count = left.len().min(into.len());
    into[..count].copy_from_slice(&left[..count]);
    count
}

/// A sink in memory that never fails. It keeps what is written as long as that fits into its room,
/// and no write allocates. Beyond its room it only counts, and its bytes are no longer known.
#[derive(Drop)]
pub struct SteadySink {
    kept: Kept,
    finished: bool,
}

impl Model for SteadySink {
    ghost Value = { RoomState };

    ghost view = { λ s. record {
      held = kept_whole s.kept.bytes.items s.kept.missing;
      finished = s.finished;
      room = s.kept.room;
    } };

    ghost invariant = { λ s. s.kept.room ≤ vec_capacity s.kept.bytes };
}

impl SteadySink {
    /// A sink with no room: it keeps none of the bytes that are written to it. Allocates nothing.
    pub fn new(alloc: Global) -> Self
        ensures { result ≡ record { held = Some []; finished = false; room = 0 } }
    {
        SteadySink {
            kept: Kept {
                bytes: Vec::new(alloc),
                missing: 0,
                room: 0,
            },
            finished: false,
        }
    }

    /// A sink with room for `room` bytes, which it reserves at once.
    ///
    /// # Errors
    ///
    /// [`NoMemory`] if memory runs out.
    pub fn with_room(alloc: Global, room: usize) -> Result<Self, NoMemory>
        ensures { IfOk result (λ s. s ≡ record { held = Some []; finished = false; room = room }) }
    {
        Ok(SteadySink {
            kept: Kept {
                bytes: Vec::with_capacity(alloc, room)?,
                missing: 0,
                room,
            },
            finished: false,
        })
    }

    /// The bytes that were written. These are all of them, in order, as long as the sink keeps its
    /// bytes.
    pub fn bytes(&self) -> &[u8]
        ensures { IfSome self.now.held (λ text. result.now ≡ text) }
    {
        &self.kept.bytes
    }
}

impl Sink for SteadySink {
    ghost held = { λ s. s.held };

    ghost finished = { λ s. s.finished };

    ghost faults = { λ _. 0 };

    fn write(&mut self, bytes: &[u8]) -> Result<usize, Failed>
        ensures whole { result ≡ Ok (length bytes.now) }
        ensures added { Adds self.old.held bytes.now self.new.held }
        ensures exact { self.new.held ≡ held_within self.old.room self.old.held bytes.now }
        ensures unfinished { self.new.finished ≡ false }
        ensures room { self.new.room ≡ self.old.room }
    {
        self.finished = false;
        self.kept.add(bytes);
        Ok(bytes.len())
    }

    fn finish(&mut self) -> Result<(), Failed>
        ensures finished { self.new ≡ record self.old { finished = true } }
        ensures never_fails { IsOk result }
    {
        self.finished = true;
        Ok(())
    }
}
