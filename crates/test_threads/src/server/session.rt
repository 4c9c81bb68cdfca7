//! One session in memory.

ghost use Rattle.std.specs.Prelude.{◌≡◌};

use crate::pair::replies_in;
use dcop_edge::{MemorySink, MemorySource, OpenGate};
use reply_cache::{FreshMaker, LookShare, ReplyCache, SharedCache};
use serve_replies::SolveMaker;
use solve_serve::{SessionEnd, serve_one};
use std::marker::Brand;
use std::sync::Wait;
use std::sync::ledger::{Blank, Ledger};
use std::thread::Threads;

/// The outcome of a session.
#[derive(Drop)]
pub(crate) struct Ended {
    /// The word for its end.
    pub(crate) end: &'static str,
    /// How many requests it answered.
    pub(crate) served: u64,
    /// How many looks at the cache there were.
    pub(crate) looks: u64,
    /// How many times its maker was called.
    pub(crate) calls: u64,
    /// How many replies to the pair of agents were written, and nothing else.
    pub(crate) replies: u64,
}

/// The outcome of a session on these bytes, with a cache of four entries. `None` if its end is
/// neither closed nor cut, or if it writes something other than replies to the pair of agents.
pub(crate) fn session_on<R: Threads + Wait + AllocGlobal + Sync>(
    rt: &R,
    bytes: &[u8],
) -> Option<Ended> {
    session_with::<R, Brand, Brand>(rt, bytes, Blank::new(1), Blank::new(1))
}

// [`session_on`], with a ledger of the looks and one of the misses.
fn session_with<R: Threads + Wait + AllocGlobal + Sync, A: Ledger, B: Ledger>(
    rt: &R,
    bytes: &[u8],
    looks: Blank,
    misses: Blank,
) -> Option<Ended>
    requires looks { (looks.name ≡ A.name) × (looks.parts ≡ A.parts) × (looks.parts ≡ 1) }
    requires misses { (misses.name ≡ B.name) × (misses.parts ≡ B.parts) × (misses.parts ≡ 1) }
{
    let alloc = rt.alloc();
    let (looks, all_looks) = looks.open::<A>();
    let (misses, all_misses) = misses.open::<B>();
    let mut share = LookShare {
        looks: all_looks,
        misses: all_misses,
    };
    let cache = ReplyCache::<SolveMaker, A, B>::new(alloc, 4, looks, misses).ok()?;
    let cache = SharedCache::new(cache);
    let mut source = MemorySource::new(Vec::from_slice(alloc, bytes).ok()?, Vec::new(alloc));
    let mut sink = MemorySink::new(alloc, Vec::new(alloc));
    let mut maker = SolveMaker::fresh();
    let end = serve_one(
        rt,
        alloc,
        0,
        &mut source,
        &mut sink,
        &cache,
        &mut share,
        &mut maker,
        &OpenGate,
    );
    let (end, served) = match end {
        SessionEnd::Closed { served } => ("closed", served),
        SessionEnd::Cut { served } => ("cut", served),
        _ => return None,
    };
    Some(Ended {
        end,
        served,
        looks: cache.into_inner().looks(),
        calls: maker.calls(),
        replies: replies_in(sink.bytes())?,
    })
}
