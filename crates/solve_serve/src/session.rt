//! One session.

ghost use Rattle.std.specs.Prelude.{◌≡◌, ◌≤◌, ◌<◌, ◌+◌, ◌^◌, OnOk};
ghost use Rattle.reply_cache.specs.Steps.{Leads};
ghost use Rattle.solve_serve.specs.Limits.{request_limit};
ghost use Rattle.solve_serve.specs.Requests.{IsPlace};
ghost use Rattle.solve_serve.specs.Answers.{tally, answering};
ghost use Rattle.solve_serve.specs.Session.{outside, IsTurn, HasServed};

use crate::answer::answer;
use crate::end::SessionEnd;
use crate::limit::{MAX_REPLIES, MAX_REQUEST};
use crate::request::next_request;
use crate::stop::Stop;
use dcop_base::VarId;
use dcop_edge::{Gate, Sink, Source};
use reply_cache::{LookShare, Maker, SharedCache};
use std::alloc::Global;
use std::marker::Sync;
use std::sync::Wait;
use std::sync::ledger::Ledger;
use std::thread::Threads;
use wire_frames::FrameReader;

/// Serves one session: reads frames of at most [`MAX_REQUEST`] bytes and writes the frame of the
/// reply to each, until the input ends, a limit is met, a call fails or memory runs out. It passes
/// the gate once before, with the session's number.
///
/// A reply is looked up in the cache. If it is not there, the maker makes it while the cache's lock
/// is free, and it is kept if its key is short enough. Whoever holds the lock only looks or keeps,
/// so nobody waits longer for it. Running out of memory is the end [`SessionEnd::Memory`], but a
/// reply that could not be kept is still written.
pub fn serve_one<
    R: Threads + Wait + Sync,
    S: Source,
    K: Sink,
    M: Maker,
    A: Ledger,
    B: Ledger,
    G: Gate,
>(
    rt: &R,
    alloc: Global,
    session: u32,
    source: &mut S,
    sink: &mut K,
    cache: &SharedCache<M, A, B>,
    share: &mut LookShare<A, B>,
    maker: &mut M,
    gate: &G,
) -> SessionEnd
    requires parts { (0 < share.old.looks.parts) × (0 < share.old.misses.parts) }
    requires calls { M.calls maker.old ≤ 2 ^ 62 }
    ensures served { HasServed M.is_reply (λ steps. Leads M.does steps maker.old maker.new) result
        (outside (S.left source.old) (S.faults source.old)
        (answering (K.held sink.old) (K.faults sink.old) (tally share.old.looks.amount share.old.misses.amount (M.calls maker.old))))
        (outside (S.left source.new) (S.faults source.new)
        (answering (K.held sink.new) (K.faults sink.new) (tally share.new.looks.amount share.new.misses.amount (M.calls maker.new)))) }
    ensures parts { (share.new.looks.parts ≡ share.old.looks.parts) × (share.new.misses.parts ≡ share.old.misses.parts) }
{
    gate.pass(VarId(session));
    let mut reader = FrameReader::with_limit(alloc, MAX_REQUEST);
    let mut place = None;
    for served in 0..MAX_REPLIES {
        match turn(
            rt,
            alloc,
            source,
            sink,
            cache,
            share,
            maker,
            &mut reader,
            &mut place,
        ) {
            Ok(()) => {}
            Err(stop) => return stop.end(served),
        }
    }
    SessionEnd::Limit {
        served: MAX_REPLIES,
    }
}

/// One turn: reads the next request and answers it.
fn turn<R: Threads + Wait + Sync, S: Source, K: Sink, M: Maker, A: Ledger, B: Ledger>(
    rt: &R,
    alloc: Global,
    source: &mut S,
    sink: &mut K,
    cache: &SharedCache<M, A, B>,
    share: &mut LookShare<A, B>,
    maker: &mut M,
    reader: &mut FrameReader,
    place: &mut Option<u64>,
) -> Result<(), Stop>
    requires place { IsPlace place.old reader.old }
    requires parts { (0 < share.old.looks.parts) × (0 < share.old.misses.parts) }
    requires calls { M.calls maker.old < 2 ^ 63 }
    ensures place { OnOk result (IsPlace place.new reader.new) }
    ensures turn { IsTurn M.is_reply (λ steps. Leads M.does steps maker.old maker.new) result
        reader.old
        (outside (S.left source.old) (S.faults source.old)
        (answering (K.held sink.old) (K.faults sink.old) (tally share.old.looks.amount share.old.misses.amount (M.calls maker.old))))
        reader.new
        (outside (S.left source.new) (S.faults source.new)
        (answering (K.held sink.new) (K.faults sink.new) (tally share.new.looks.amount share.new.misses.amount (M.calls maker.new)))) }
    ensures parts { (share.new.looks.parts ≡ share.old.looks.parts) × (share.new.misses.parts ≡ share.old.misses.parts) }
{
    let request = next_request(source, reader, place)?;
    answer(rt, alloc, sink, cache, share, maker, request)
}
