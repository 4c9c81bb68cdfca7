//! A source and a sink in memory that fail at chosen calls.

ghost use Rattle.std.specs.Prelude.{◌≡◌, false, true, [], ◌∷◌, ◌++◌, Some, IfOk, OnOk, OnErr, IfSome, length, is_err};
ghost use Rattle.dcop_edge.specs.Faults.{HasCause};
ghost use Rattle.dcop_edge.specs.Source.{Gives, count_of};
ghost use Rattle.dcop_edge.specs.Sink.{Takes};
ghost use Rattle.dcop_edge.specs.Memory.{GivingState, TakingState, no_calls, fails_next, after_call, kept_whole};

use crate::fault::{Failed, FailingCalls, ReadFault};
use crate::kept::Kept;
use crate::sink::Sink;
use crate::source::Source;
use crate::steady::SteadySource;
use std::alloc::Global;
use std::marker::Model;

/// A source over bytes in memory that fails at chosen calls of `read`.
#[derive(Drop)]
pub struct MemorySource {
    source: SteadySource,
    calls: FailingCalls,
}

impl Model for MemorySource {
    ghost Value = { GivingState };

    ghost view = { λ s. record { left = s.source.left; gave = s.source.gave; calls = s.calls } };
}

impl MemorySource {
    /// A source that gives these bytes and fails at the calls with the numbers in `fails`, counted
    /// from 0. Allocates nothing.
    pub fn new(bytes: Vec<u8>, fails: Vec<u64>) -> Self
        ensures { result ≡ record { left = bytes.items; gave = []; calls = no_calls fails.items } }
    {
        MemorySource {
            source: SteadySource::new(bytes),
            calls: FailingCalls::new(fails),
        }
    }
}

impl Source for MemorySource {
    ghost left = { λ s. Some s.left };

    ghost faults = { λ s. s.calls.faults };

    ghost gave = { λ s. s.gave };

    fn read(&mut self, into: &mut [u8]) -> Result<usize, Failed>
        ensures given { IfOk result (Gives (Some self.old.left) (Some self.new.left) into.old into.new) }
        ensures none_taken { OnErr result (self.new.left ≡ self.old.left) }
        ensures unfilled { OnErr result (into.new ≡ into.old) }
        ensures cause { HasCause self.old.calls.faults self.new.calls.faults result }
        ensures counted { self.new.gave ≡ self.old.gave ++ count_of result ∷ [] }
        ensures exact { is_err result ≡ fails_next self.old.calls }
        ensures calls { self.new.calls ≡ after_call self.old.calls }
    {
        if let Err(failed) = self.calls.come() {
            self.source.refuse();
            return Err(failed);
        }
        self.source.read(into)
    }

    fn read_behind(&mut self, bytes: &mut Vec<u8>, most: usize) -> Result<usize, ReadFault> {
        if let Err(failed) = self.calls.come() {
            self.source.refuse();
            return Err(ReadFault::from(failed));
        }
        self.source.read_behind(bytes, most)
    }
}

/// A sink in memory that fails at chosen calls of `write` and `finish`, counted together. It grows
/// as bytes are written to it. Once memory runs out it only counts, and its bytes are no longer
/// known.
#[derive(Drop)]
pub struct MemorySink {
    kept: Kept,
    finished: bool,
    calls: FailingCalls,
}

impl Model for MemorySink {
    ghost Value = { TakingState };

    ghost view = { λ s. record {
      held = kept_whole s.kept.bytes.items s.kept.missing;
      finished = s.finished;
      calls = s.calls;
    } };
}

impl MemorySink {
    /// An empty sink. Its calls with the numbers in `fails`, counted from 0, fail. Allocates
    /// nothing.
    pub fn new(alloc: Global, fails: Vec<u64>) -> Self
        ensures { result ≡ record { held = Some []; finished = false; calls = no_calls fails.items } }
    {
        MemorySink {
            kept: Kept {
                bytes: Vec::new(alloc),
                missing: 0,
                room: usize::MAX,
            },
            finished: false,
            calls: FailingCalls::new(fails),
        }
    }

    /// The bytes that were written. These are all of them, in order, as long as the sink keeps its
    /// bytes.
    pub fn bytes(&self) -> &[u8]
        ensures { IfSome self.now.held (λ text. result.now ≡ text) }
    {
        &self.kept.bytes
    }
}

impl Sink for MemorySink {
    ghost held = { λ s. s.held };

    ghost finished = { λ s. s.finished };

    ghost faults = { λ s. s.calls.faults };

    fn write(&mut self, bytes: &[u8]) -> Result<usize, Failed>
        ensures taken { IfOk result (Takes self.old.held self.new.held bytes.now) }
        ensures none_taken { OnErr result (self.new.held ≡ self.old.held) }
        ensures unfinished { self.new.finished ≡ false }
        ensures cause { HasCause self.old.calls.faults self.new.calls.faults result }
        ensures exact { is_err result ≡ fails_next self.old.calls }
        ensures counted { self.new.calls ≡ after_call self.old.calls }
        ensures whole { IfOk result (λ count. count ≡ length bytes.now) }
    {
        self.finished = false;
        self.calls.come()?;
        self.kept.add(bytes);
        Ok(bytes.len())
    }

    fn finish(&mut self) -> Result<(), Failed>
        ensures same { self.new.held ≡ self.old.held }
        ensures done { OnOk result (self.new.finished ≡ true) }
        ensures not_done { OnErr result (self.new.finished ≡ self.old.finished) }
        ensures cause { HasCause self.old.calls.faults self.new.calls.faults result }
        ensures exact { is_err result ≡ fails_next self.old.calls }
        ensures counted { self.new.calls ≡ after_call self.old.calls }
    {
        self.calls.come()?;
        self.finished = true;
        Ok(())
    }
}
