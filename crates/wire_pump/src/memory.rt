//! Wires in memory that fail at chosen polls and change chosen bytes.

ghost use Rattle.std.specs.Prelude.{◌≡◌, ◌≤◌, ◌<◌, true, [], ◌∷◌, ◌↔◌, IfOk, IfErr, is_err};
ghost use Rattle.futures.specs.Poll.{OnPending};
ghost use Rattle.futures.specs.Task.{IsArmed, Keeps};
ghost use Rattle.dcop_edge.specs.Faults.{Rose};
ghost use Rattle.dcop_edge.specs.Memory.{no_calls, fails_next, after_call};
ghost use Rattle.wire_pump.specs.Wire.{AfterWrite, AfterRead, Reach};
ghost use Rattle.wire_pump.specs.Dialer.{HasDialCause, IsNew, TellsNothing};
ghost use Rattle.wire_pump.specs.declared.dialer.DialFault.TheVariants.{NoMemory as no_memory};

use crate::alter::{Alter, PollFail, altered, alters_of, polls_of};
use crate::dialer::{DialFault, Dialer};
use crate::steady::{SteadyWire, drive_here};
use crate::wire::Wire;
use dcop_base::NoMemory;
use dcop_edge::{Failed, FailingCalls};
use futures::Future;
use futures::task::{Context, Poll};
use std::alloc::{AllocGlobal, Global};
use std::net::Net;
use std::random::RandomSource;
use std::sync::Wait;
use std::thread::Threads;
use std::time::Clock;

/// One end of a stream in memory that fails at chosen polls and changes chosen bytes. If it changes
/// any byte, it sends one byte a poll and does not tell what it has sent.
#[derive(Drop)]
pub struct MemoryWire {
    pub(crate) wire: SteadyWire,
    pub(crate) calls: FailingCalls,
    pub(crate) alters: Vec<Alter>,
    // how many bytes it has sent, if it changes any; at most 2^64 - 1
    pub(crate) written: u64,
}

impl MemoryWire {
    ghost use Rattle.wire_pump.specs.Steady.{steady_told, AreJoined, KnowsWrote, known_room};
    ghost use Rattle.wire_pump.specs.Memory.{altered, CountsSent};

    // Sends the first byte, or the one that replaces it.
    fn write_one(&mut self, cx: &mut Context<'_>, byte: u8) -> Poll<Result<usize, Failed>>
        ensures one { AfterWrite (steady_told self.old.wire) (altered self.old.alters.items self.old.written byte ∷ []) result (steady_told self.new.wire) }
        ensures same { (self.new.alters ≡ self.old.alters) × (self.new.calls ≡ self.old.calls) }
        ensures counted { CountsSent self.old result self.new }
        ensures joined { (w : SteadyWire) → AreJoined self.old.wire w → AreJoined self.new.wire w }
        ensures joins { (w : SteadyWire) → AreJoined w self.old.wire → AreJoined w self.new.wire }
        ensures registered { OnPending result (IsArmed cx.new) }
        ensures kept { Keeps cx.old cx.new }
        ensures full { OnPending result (known_room self.old.wire ≡ 0) }
        ensures woken { OnPending result (cx.new.is_woken ≡ true) }
        ensures knows { KnowsWrote self.old.wire result self.new.wire }
    {
        let sent = [altered(&self.alters, self.written, byte)];
        let polled = self.wire.poll_write(cx, &sent);
        if let Poll::Ready(Ok(count)) = &polled {
            self.written = self.written.saturating_add(*count as u64);
        }
        polled
    }
}

impl Wire for MemoryWire {
    ghost use Rattle.wire_pump.specs.Steady.{AreJoined, AreApart, KnowAll, KnowsWrote, KnowsRead, known_room, known_bytes};
    ghost use Rattle.wire_pump.specs.Memory.{memory_told, CarryAll, AreOthers, FailsWhere, SendsAltered};

    ghost told = { memory_told };

    ghost is_joined = { CarryAll };

    ghost are_apart = { AreOthers };

    fn poll_write(&mut self, cx: &mut Context<'_>, bytes: &[u8]) -> Poll<Result<usize, Failed>>
        ensures written { AfterWrite (memory_told self.old) bytes.now result (memory_told self.new) }
        ensures joined { (w : MemoryWire) → CarryAll self.old w → CarryAll self.new w }
        ensures joins { (w : MemoryWire) → CarryAll w self.old → CarryAll w self.new }
        ensures registered { OnPending result (IsArmed cx.new) }
        ensures kept { Keeps cx.old cx.new }
        ensures counted { self.new.calls ≡ after_call self.old.calls }
        ensures fails { FailsWhere (fails_next self.old.calls) result }
        ensures sends { SendsAltered self.old bytes.now result self.new }
        ensures carried { (w : SteadyWire) → AreJoined self.old.wire w → AreJoined self.new.wire w }
        ensures carries { (w : SteadyWire) → AreJoined w self.old.wire → AreJoined w self.new.wire }
        ensures full { OnPending result (known_room self.old.wire ≡ 0) }
        ensures woken { OnPending result (cx.new.is_woken ≡ true) }
        ensures knows { KnowsWrote self.old.wire result self.new.wire }
        ensures same { self.new.alters ≡ self.old.alters }
    {
        if self.calls.come().is_err() {
            return Poll::Ready(Err(Failed));
        }
        if self.alters.is_empty() {
            return self.wire.poll_write(cx, bytes);
        }
        match bytes.split_first() {
            Some((byte, _rest)) => self.write_one(cx, *byte),
            None => Poll::Ready(Ok(0)),
        }
    }

    fn poll_read(&mut self, cx: &mut Context<'_>, into: &mut [u8]) -> Poll<Result<usize, Failed>>
        ensures given { AfterRead (memory_told self.old) into.old into.new result (memory_told self.new) }
        ensures joined { (w : MemoryWire) → CarryAll self.old w → CarryAll self.new w }
        ensures joins { (w : MemoryWire) → CarryAll w self.old → CarryAll w self.new }
        ensures registered { OnPending result (IsArmed cx.new) }
        ensures kept { Keeps cx.old cx.new }
        ensures counted { self.new.calls ≡ after_call self.old.calls }
        ensures fails { FailsWhere (fails_next self.old.calls) result }
        ensures carried { (w : SteadyWire) → AreJoined self.old.wire w → AreJoined self.new.wire w }
        ensures carries { (w : SteadyWire) → AreJoined w self.old.wire → AreJoined w self.new.wire }
        ensures empty { OnPending result (known_bytes self.old.wire ≡ []) }
        ensures woken { OnPending result (cx.new.is_woken ≡ true) }
        ensures knows { KnowsRead self.old.wire into.new result self.new.wire }
        ensures same { (self.new.alters ≡ self.old.alters) × (self.new.written ≡ self.old.written) }
    {
        if self.calls.come().is_err() {
            return Poll::Ready(Err(Failed));
        }
        self.wire.poll_read(cx, into)
    }

    fn beside(&mut self, other: &mut Self)
        ensures told { (memory_told self.new ≡ memory_told self.old)
            × (memory_told other.new ≡ memory_told other.old) }
        ensures joined { CarryAll self.old other.old → CarryAll self.new other.new }
        ensures reach { CarryAll self.old other.old
            → Reach (memory_told self.new) (memory_told other.new) }
        ensures apart { AreOthers self.old other.old → (self.new ≡ self.old) × (other.new ≡ other.old) }
        ensures carried { AreJoined self.old.wire other.old.wire → AreJoined self.new.wire other.new.wire }
        ensures known { AreJoined self.old.wire other.old.wire → KnowAll self.new.wire other.new.wire }
        ensures same { (self.new.calls ≡ self.old.calls) × (self.new.alters ≡ self.old.alters)
            × (self.new.written ≡ self.old.written) }
        ensures other { (other.new.calls ≡ other.old.calls) × (other.new.alters ≡ other.old.alters)
            × (other.new.written ≡ other.old.written) }
    {
        self.wire.beside(&mut other.wire);
    }
}

/// Makes pairs of [`MemoryWire`]. It is honest if it changes no byte.
#[derive(Drop)]
pub struct MemoryDialer {
    calls: FailingCalls,
    polls: Vec<PollFail>,
    alters: Vec<Alter>,
    made: u64,
}

impl MemoryDialer {
    ghost use Rattle.wire_pump.specs.Steady.{steady_told, AreJoined, IsIdle, stream_of};
    ghost use Rattle.wire_pump.specs.Dialer.{CountsPair};
    ghost use Rattle.wire_pump.specs.Memory.{polls_of, alters_of, IsPair};

    /// A dialer whose calls of `pair` fail if their numbers, from 0, are in `fails`. Its wires fail
    /// at the polls in `polls`, and change the bytes in `alters`. It takes no memory.
    pub fn new(fails: Vec<u64>, polls: Vec<PollFail>, alters: Vec<Alter>) -> Self
        ensures calls { result.calls ≡ no_calls fails.items }
        ensures polls { result.polls ≡ polls }
        ensures alters { result.alters ≡ alters }
        ensures none { result.made ≡ 0 }
    {
        MemoryDialer {
            calls: FailingCalls::new(fails),
            polls,
            alters,
            made: 0,
        }
    }

    // One end of a stream, with the faults that are asked for at it.
    fn end(&self, alloc: Global, wire: SteadyWire, is_first: bool) -> Result<MemoryWire, NoMemory>
        ensures wire { IfOk result (λ w. w.wire ≡ wire) }
        ensures calls { IfOk result
            (λ w. w.calls ≡ no_calls (polls_of self.now.made is_first self.now.polls.items)) }
        ensures alters { IfOk result
            (λ w. w.alters.items ≡ alters_of self.now.made is_first self.now.alters.items) }
        ensures written { IfOk result (λ w. w.written ≡ 0) }
    {
        let polls = polls_of(alloc, &self.polls, self.made, is_first)?;
        Ok(MemoryWire {
            wire,
            calls: FailingCalls::new(polls),
            alters: alters_of(alloc, &self.alters, self.made, is_first)?,
            written: 0,
        })
    }

    // The ends of the next pair, or the failure of this call.
    fn make(&mut self, alloc: Global) -> Result<(MemoryWire, MemoryWire), DialFault>
        ensures cause { HasDialCause self.old.calls.faults self.new.calls.faults result }
        ensures counted { self.new.calls ≡ after_call self.old.calls }
        ensures fails { fails_next self.old.calls ≡ true → is_err result ≡ true }
        ensures same { (self.new.polls ≡ self.old.polls) × (self.new.alters ≡ self.old.alters) }
        ensures made { IfOk result (λ r. IsPair self.old.made self.old.polls.items self.old.alters.items r.0 r.1) }
        ensures numbered { CountsPair self.old.made result self.new.made }
        ensures joined { IfOk result (λ r. AreJoined r.0.wire r.1.wire) }
        ensures first { IfOk result (λ r. IsNew (steady_told r.0.wire) × TellsNothing (steady_told r.0.wire)) }
        ensures second { IfOk result (λ r. IsNew (steady_told r.1.wire) × TellsNothing (steady_told r.1.wire)) }
        ensures idle { IfOk result (λ r. IsIdle r.0.wire × IsIdle r.1.wire) }
        ensures streams { IfOk result (λ r. (stream_of r.0.wire ≡ self.old.made) × (stream_of r.1.wire ≡ self.old.made)) }
    {
        if self.calls.come().is_err() {
            return Err(DialFault::Failed);
        }
        let (first, second) = SteadyWire::pair(alloc, self.made)?;
        let pair = (
            self.end(alloc, first, true)?,
            self.end(alloc, second, false)?,
        );
        self.made = self.made.saturating_add(1);
        Ok(pair)
    }
}

impl Dialer for MemoryDialer {
    ghost use Rattle.wire_pump.specs.Steady.{AreJoined, IsIdle, stream_of};
    ghost use Rattle.wire_pump.specs.Dialer.{CountsPair};
    ghost use Rattle.wire_pump.specs.Memory.{memory_told, CarryAll, IsPair};

    type W = MemoryWire;

    ghost faults = { λ d. d.calls.faults };

    ghost is_honest = { λ d. d.alters.items ≡ [] };

    fn pair<R>(&mut self, _rt: &R, alloc: Global) -> Result<(MemoryWire, MemoryWire), DialFault>
    where
        R: Threads + Wait + Clock + RandomSource + Net + AllocGlobal + Sync,
        ensures cause { HasDialCause self.old.calls.faults self.new.calls.faults result }
        ensures new { IfOk result (λ r. IsNew (memory_told r.0) × IsNew (memory_told r.1)) }
        ensures joined { self.old.alters.items ≡ [] → IfOk result (λ r. CarryAll r.0 r.1) }
        ensures told { self.old.alters.items ≡ [] → IfOk result
            (λ r. TellsNothing (memory_told r.0) × TellsNothing (memory_told r.1)) }
        ensures honest { self.old.alters.items ≡ [] ↔ self.new.alters.items ≡ [] }
        ensures made { IfOk result (λ r. IsPair self.old.made self.old.polls.items self.old.alters.items r.0 r.1) }
        ensures carried { IfOk result (λ r. AreJoined r.0.wire r.1.wire) }
        ensures idle { IfOk result (λ r. IsIdle r.0.wire × IsIdle r.1.wire) }
        ensures streams { IfOk result (λ r. (stream_of r.0.wire ≡ self.old.made) × (stream_of r.1.wire ≡ self.old.made)) }
        ensures numbered { CountsPair self.old.made result self.new.made }
        ensures fails { fails_next self.old.calls ≡ true → is_err result ≡ true }
        ensures counted { self.new.calls ≡ after_call self.old.calls }
        ensures same { (self.new.polls ≡ self.old.polls) × (self.new.alters ≡ self.old.alters) }
    {
        self.make(alloc)
    }

    fn drive<R, F>(&mut self, rt: &R, _alloc: Global, future: F) -> Result<F::Output, DialFault>
    where
        R: Threads + Wait + Clock + RandomSource + Net + AllocGlobal + Sync,
        F: Future,
        requires { F.can_poll future }
        ensures cause { HasDialCause self.old.calls.faults self.new.calls.faults result }
        ensures gives { IfOk result (F.gives future) }
        ensures honest { self.old.alters.items ≡ [] ↔ self.new.alters.items ≡ [] }
        ensures memory { IfErr result (λ fault. fault ≡ no_memory) }
        ensures same { self.new ≡ self.old }
    {
        drive_here(rt, future)
    }

    fn charge(&mut self, wire: &MemoryWire)
        ensures none { wire.now.calls.faults ≡ 0 → self.new.calls.faults ≡ self.old.calls.faults }
        ensures some { 0 < wire.now.calls.faults
            → (self.old.calls.faults ≤ self.new.calls.faults) × Rose self.old.calls.faults self.new.calls.faults }
        ensures honest { self.old.alters.items ≡ [] ↔ self.new.alters.items ≡ [] }
        ensures calls { self.new.calls ≡ record self.old.calls { faults = self.new.calls.faults } }
        ensures same { (self.new.polls ≡ self.old.polls) × (self.new.alters ≡ self.old.alters)
            × (self.new.made ≡ self.old.made) }
    {
        if wire.calls.faults() > 0 {
            self.calls.charge();
        }
    }
}
