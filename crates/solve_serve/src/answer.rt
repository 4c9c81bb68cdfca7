//! Answering a request.

ghost use Rattle.std.specs.Prelude.{◌≡◌, ◌≤◌, ◌<◌, ◌+◌, ◌^◌, length, IfOk};
ghost use Rattle.reply_cache.specs.Limits.{reply_limit, key_limit};
ghost use Rattle.reply_cache.specs.Steps.{Leads};
ghost use Rattle.solve_serve.specs.Answers.{tally, answering, IsAnswered, IsReplied};

use crate::stop::Stop;
use crate::write::write_all;
use dcop_base::{Bytes, NoMemory};
use dcop_edge::Sink;
use reply_cache::{Key, LookShare, MAX_KEY, Maker, SharedBytes, SharedCache};
use std::alloc::Global;
use std::marker::Sync;
use std::sync::Wait;
use std::sync::ledger::Ledger;
use std::thread::Threads;
use wire_frames::frame;

/// Writes the frame of the reply to a request.
pub(crate) fn answer<R: Threads + Wait + Sync, K: Sink, M: Maker, A: Ledger, B: Ledger>(
    rt: &R,
    alloc: Global,
    sink: &mut K,
    cache: &SharedCache<M, A, B>,
    share: &mut LookShare<A, B>,
    maker: &mut M,
    request: Bytes,
) -> Result<(), Stop>
    requires parts { (0 < share.old.looks.parts) × (0 < share.old.misses.parts) }
    requires calls { M.calls maker.old < 2 ^ 63 }
    ensures answered { IsAnswered M.is_reply (λ steps. Leads M.does steps maker.old maker.new) request result
        (answering (K.held sink.old) (K.faults sink.old) (tally share.old.looks.amount share.old.misses.amount (M.calls maker.old)))
        (answering (K.held sink.new) (K.faults sink.new) (tally share.new.looks.amount share.new.misses.amount (M.calls maker.new))) }
    ensures parts { (share.new.looks.parts ≡ share.old.looks.parts) × (share.new.misses.parts ≡ share.old.misses.parts) }
{
    let reply = reply_to(rt, alloc, cache, share, maker, Key::new(request))?;
    let frame = frame(alloc, reply.as_slice())?;
    match write_all(sink, frame.as_slice()) {
        Ok(()) => Ok(()),
        Err(_) => Err(Stop::Write),
    }
}

/// The reply to a request: from the cache; or made while the cache's lock is free, and then kept,
/// with the request as its key, if that is short enough.
fn reply_to<R: Threads + Wait + Sync, M: Maker, A: Ledger, B: Ledger>(
    rt: &R,
    alloc: Global,
    cache: &SharedCache<M, A, B>,
    share: &mut LookShare<A, B>,
    maker: &mut M,
    key: Key,
) -> Result<SharedBytes, NoMemory>
    requires parts { (0 < share.old.looks.parts) × (0 < share.old.misses.parts) }
    requires calls { M.calls maker.old < 2 ^ 63 }
    ensures replied { IfOk result (λ reply. M.is_reply key reply) }
    ensures short { IfOk result (λ reply. length reply ≤ reply_limit) }
    ensures tally { IsReplied (λ steps. Leads M.does steps maker.old maker.new) key result
        (tally share.old.looks.amount share.old.misses.amount (M.calls maker.old))
        (tally share.new.looks.amount share.new.misses.amount (M.calls maker.new)) }
    ensures parts { (share.new.looks.parts ≡ share.old.looks.parts) × (share.new.misses.parts ≡ share.old.misses.parts) }
{
    M::replies_are_short();
    let found = cache.look(rt, share, maker, &key)?;
    if let Some(reply) = found {
        return Ok(reply);
    }
    let made = maker.make(rt, alloc, key.as_slice())?;
    let reply = SharedBytes::new(alloc, made)?;
    if key.as_slice().len() <= MAX_KEY {
        keep(rt, cache, key, &reply);
    }
    Ok(reply)
}

/// Keeps a reply, which it shares; if memory runs out, it is not kept.
fn keep<R: Wait, M: Maker, A: Ledger, B: Ledger>(
    rt: &R,
    cache: &SharedCache<M, A, B>,
    key: Key,
    reply: &SharedBytes,
)
    requires reply { M.is_reply key reply.now }
    requires short { length key ≤ key_limit }
{
    let Ok(reply) = reply.share() else {
        return;
    };
    let _kept = cache.keep(rt, key, reply);
}
