//! Wires in memory that never fail.

ghost use Rattle.std.specs.Prelude.{◌≡◌, ◌≤◌, ◌<◌, ◌↔◌, true, [], IfOk, IfErr};
ghost use Rattle.futures.specs.Poll.{OnPending};
ghost use Rattle.futures.specs.Task.{IsArmed, Keeps};
ghost use Rattle.dcop_edge.specs.Faults.{Rose};
ghost use Rattle.wire_pump.specs.Wire.{AfterWrite, AfterRead, Reach};
ghost use Rattle.wire_pump.specs.Dialer.{HasDialCause, IsNew, TellsNothing};
ghost use Rattle.wire_pump.specs.Ring.{free_in};
ghost use Rattle.wire_pump.specs.declared.dialer.DialFault.TheVariants.{NoMemory as no_memory};

use crate::dialer::{DialFault, Dialer};
use crate::ring::{RING_BYTES, Ring};
use crate::wire::Wire;
use dcop_base::NoMemory;
use dcop_edge::Failed;
use futures::Future;
use futures::executor::block_on;
use futures::task::{Context, Poll};
use std::alloc::{AllocGlobal, Global};
use std::net::Net;
use std::random::RandomSource;
use std::sync::Wait;
use std::thread::Threads;
use std::time::Clock;

/// One end of a stream in memory. It never fails, and it tells all bytes that it has sent and
/// received.
///
/// Each direction holds up to 4,096 bytes. An end sends into one ring of its own and receives from
/// another. [`Wire::beside`] moves what one end has sent into the ring from which the other
/// receives.
#[derive(Drop)]
pub struct SteadyWire {
    pub(crate) outgoing: Ring,
    pub(crate) incoming: Ring,
    // how many more bytes this end may send before `beside` is called again
    pub(crate) room: usize,
    pub(crate) pair: u64,
    pub(crate) is_first: bool,
    pub(crate) sent_count: u64,
    pub(crate) received_count: u64,
    pub(crate) write_waits: u64,
    pub(crate) read_waits: u64,
    ghost free: { room ≤ free_in outgoing },
}

impl SteadyWire {
    ghost use Rattle.wire_pump.specs.Ring.{put_into, taken_from, ring_bytes};
    ghost use Rattle.wire_pump.specs.Steady.{steady_told, AreJoined, IsIdle, stream_of, sent_by, received_by, known_room, known_bytes};

    /// The first or the second end of the stream with this number. It takes memory.
    fn new(alloc: Global, pair: u64, is_first: bool) -> Result<SteadyWire, NoMemory>
        ensures pair { IfOk result (λ w. (w.pair ≡ pair) × (w.is_first ≡ is_first)) }
        ensures empty { IfOk result (λ w. (sent_by w ≡ []) × (received_by w ≡ []) × (known_bytes w ≡ [])) }
        ensures poured { IfOk result (λ w. (taken_from w.outgoing ≡ []) × (put_into w.incoming ≡ [])) }
        ensures room { IfOk result (λ w. known_room w ≡ ring_bytes) }
        ensures counts { IfOk result (λ w. (w.write_waits ≡ 0) × (w.read_waits ≡ 0)) }
        ensures bytes { IfOk result (λ w. (w.sent_count ≡ 0) × (w.received_count ≡ 0)) }
    {
        Ok(SteadyWire {
            outgoing: Ring::new(alloc)?,
            incoming: Ring::new(alloc)?,
            room: RING_BYTES,
            pair,
            is_first,
            sent_count: 0,
            received_count: 0,
            write_waits: 0,
            read_waits: 0,
        })
    }

    /// The two ends of the stream with this number. It takes memory.
    pub(crate) fn pair(alloc: Global, pair: u64) -> Result<(SteadyWire, SteadyWire), NoMemory>
        ensures joined { IfOk result (λ r. AreJoined r.0 r.1) }
        ensures first { IfOk result (λ r. IsNew (steady_told r.0) × TellsNothing (steady_told r.0)) }
        ensures second { IfOk result (λ r. IsNew (steady_told r.1) × TellsNothing (steady_told r.1)) }
        ensures idle { IfOk result (λ r. IsIdle r.0 × IsIdle r.1) }
        ensures streams { IfOk result (λ r. (stream_of r.0 ≡ pair) × (stream_of r.1 ≡ pair)) }
    {
        Ok((
            SteadyWire::new(alloc, pair, true)?,
            SteadyWire::new(alloc, pair, false)?,
        ))
    }
}

impl Wire for SteadyWire {
    ghost use Rattle.wire_pump.specs.Steady.{steady_told, AreJoined, AreApart, KnowAll, KnowsWrote, KnowsRead, known_room, known_bytes};

    ghost told = { steady_told };

    ghost is_joined = { AreJoined };

    ghost are_apart = { AreApart };

    fn poll_write(&mut self, cx: &mut Context<'_>, bytes: &[u8]) -> Poll<Result<usize, Failed>>
        ensures written { AfterWrite (steady_told self.old) bytes.now result (steady_told self.new) }
        ensures joined { (w : SteadyWire) → AreJoined self.old w → AreJoined self.new w }
        ensures joins { (w : SteadyWire) → AreJoined w self.old → AreJoined w self.new }
        ensures registered { OnPending result (IsArmed cx.new) }
        ensures kept { Keeps cx.old cx.new }
        ensures full { OnPending result (known_room self.old ≡ 0) }
        ensures woken { OnPending result (cx.new.is_woken ≡ true) }
        ensures knows { KnowsWrote self.old result self.new }
    {
        let count = bytes.len().min(self.room);
        if count == 0 && !bytes.is_empty() {
            self.write_waits = self.write_waits.saturating_add(1);
            return cx.yield_now();
        }
        self.room -= count;
        self.outgoing.put(&bytes[..count]);
        self.sent_count = self.sent_count.saturating_add(count as u64);
        Poll::Ready(Ok(count))
    }

    fn poll_read(&mut self, cx: &mut Context<'_>, into: &mut [u8]) -> Poll<Result<usize, Failed>>
        ensures given { AfterRead (steady_told self.old) into.old into.new result (steady_told self.new) }
        ensures joined { (w : SteadyWire) → AreJoined self.old w → AreJoined self.new w }
        ensures joins { (w : SteadyWire) → AreJoined w self.old → AreJoined w self.new }
        ensures registered { OnPending result (IsArmed cx.new) }
        ensures kept { Keeps cx.old cx.new }
        ensures empty { OnPending result (known_bytes self.old ≡ []) }
        ensures woken { OnPending result (cx.new.is_woken ≡ true) }
        ensures knows { KnowsRead self.old into.new result self.new }
    {
        let count = self.incoming.take(into);
        if count == 0 && !into.is_empty() {
            self.read_waits = self.read_waits.saturating_add(1);
            return cx.yield_now();
        }
        self.received_count = self.received_count.saturating_add(count as u64);
        Poll::Ready(Ok(count))
    }

    fn beside(&mut self, other: &mut Self)
        ensures told { (steady_told self.new ≡ steady_told self.old)
            × (steady_told other.new ≡ steady_told other.old) }
        ensures joined { AreJoined self.old other.old → AreJoined self.new other.new }
        ensures reach { AreJoined self.old other.old
            → Reach (steady_told self.new) (steady_told other.new) }
        ensures apart { AreApart self.old other.old → (self.new ≡ self.old) × (other.new ≡ other.old) }
        ensures known { AreJoined self.old other.old → KnowAll self.new other.new }
    {
        if self.pair != other.pair {
            return;
        }
        if self.is_first == other.is_first {
            return;
        }
        self.room = self.outgoing.pour(&mut other.incoming);
        other.room = other.outgoing.pour(&mut self.incoming);
    }
}

/// Makes pairs of [`SteadyWire`]. It never fails, and it is honest.
#[derive(Debug, Drop)]
pub struct SteadyDialer {
    made: u64,
}

impl SteadyDialer {
    /// A dialer that has made no pair. It takes no memory.
    pub fn new() -> Self
        ensures none { result.made ≡ 0 }
    {
        SteadyDialer { made: 0 }
    }
}

impl Default for SteadyDialer {
    fn default() -> Self {
        Self::new()
    }
}

impl Dialer for SteadyDialer {
    ghost use Rattle.wire_pump.specs.Steady.{steady_told, steady_faults, steady_honest, AreJoined, IsIdle, stream_of};
    ghost use Rattle.wire_pump.specs.Dialer.{CountsPair};

    type W = SteadyWire;

    ghost faults = { steady_faults };

    ghost is_honest = { steady_honest };

    fn pair<R>(&mut self, _rt: &R, alloc: Global) -> Result<(SteadyWire, SteadyWire), DialFault>
    where
        R: Threads + Wait + Clock + RandomSource + Net + AllocGlobal + Sync,
        ensures cause { HasDialCause (steady_faults self.old) (steady_faults self.new) result }
        ensures new { IfOk result (λ r. IsNew (steady_told r.0) × IsNew (steady_told r.1)) }
        ensures joined { steady_honest self.old → IfOk result (λ r. AreJoined r.0 r.1) }
        ensures told { steady_honest self.old → IfOk result
            (λ r. TellsNothing (steady_told r.0) × TellsNothing (steady_told r.1)) }
        ensures honest { steady_honest self.old ↔ steady_honest self.new }
        ensures idle { IfOk result (λ r. IsIdle r.0 × IsIdle r.1) }
        ensures streams { IfOk result (λ r. (stream_of r.0 ≡ self.old.made) × (stream_of r.1 ≡ self.old.made)) }
        ensures numbered { CountsPair self.old.made result self.new.made }
    {
        let pair = SteadyWire::pair(alloc, self.made)?;
        self.made = self.made.saturating_add(1);
        Ok(pair)
    }

    fn drive<R, F>(&mut self, rt: &R, _alloc: Global, future: F) -> Result<F::Output, DialFault>
    where
        R: Threads + Wait + Clock + RandomSource + Net + AllocGlobal + Sync,
        F: Future,
        requires { F.can_poll future }
        ensures cause { HasDialCause (steady_faults self.old) (steady_faults self.new) result }
        ensures gives { IfOk result (F.gives future) }
        ensures honest { steady_honest self.old ↔ steady_honest self.new }
        ensures memory { IfErr result (λ fault. fault ≡ no_memory) }
        ensures same { self.new ≡ self.old }
    {
        drive_here(rt, future)
    }

    fn charge(&mut self, wire: &SteadyWire)
        ensures none { (steady_told wire.now).faults ≡ 0 → steady_faults self.new ≡ steady_faults self.old }
        ensures some { 0 < (steady_told wire.now).faults
            → (steady_faults self.old ≤ steady_faults self.new) × Rose (steady_faults self.old) (steady_faults self.new) }
        ensures honest { steady_honest self.old ↔ steady_honest self.new }
        ensures same { self.new ≡ self.old }
    {}
}

/// Polls the future on this thread until it is ready. If the executor refuses, memory has run out.
pub(crate) fn drive_here<R, F>(rt: &R, future: F) -> Result<F::Output, DialFault>
where
    R: Wait + RandomSource + AllocGlobal,
    F: Future,
    requires { F.can_poll future }
    ensures gives { IfOk result (F.gives future) }
    ensures cause { HasDialCause 0 0 result }
    ensures memory { IfErr result (λ fault. fault ≡ no_memory) }
{
    match block_on(rt, future) {
        Ok(output) => Ok(output),
        Err(_refused) => Err(DialFault::NoMemory),
    }
}
