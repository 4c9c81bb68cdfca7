//! The maker of a server's replies.

ghost use Rattle.std.specs.Prelude.{◌≡◌, ◌+◌};

use crate::answer::answer_bytes;
use crate::handles::ThreadsAlone;
use dcop_base::{Bytes, NoMemory};
use reply_cache::{FreshMaker, Look, Maker};
use solve_answers::dpop_answers_are_one;
use std::alloc::Global;
use std::marker::Sync;
use std::sync::Wait;
use std::thread::Threads;

/// A maker whose reply to a key is what `solve --method dpop` writes for it.
#[derive(Debug, Drop)]
pub struct SolveMaker {
    calls: u64,
}

impl SolveMaker {
    /// How many times it was called.
    pub fn calls(&self) -> u64
        ensures { result ≡ self.now.calls }
    {
        self.calls
    }
}

impl Maker for SolveMaker {
    ghost use Rattle.reply_cache.specs.Steps.{Counts};
    ghost use Rattle.serve_replies.specs.Reply.{IsReply};

    ghost is_reply = { IsReply };

    ghost calls = { λ maker. maker.calls };

    ghost does = { λ before step after. Counts before.calls step after.calls };

    fn make<R: Threads + Wait + Sync>(
        &mut self,
        rt: &R,
        alloc: Global,
        key: &[u8],
    ) -> Result<Bytes, NoMemory> {
        self.calls += 1;
        answer_bytes(&ThreadsAlone(rt, alloc), alloc, key)
    }

    fn note(&mut self, _look: Look<'_>) {}

    fn keys_have_one_reply() {
        dpop_answers_are_one();
    }

    fn replies_are_short() {}
}

impl FreshMaker for SolveMaker {
    fn fresh() -> Self {
        SolveMaker { calls: 0 }
    }
}
