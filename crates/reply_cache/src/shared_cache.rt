//! A cache that sessions share.

ghost use Rattle.std.specs.Prelude.{◌≡◌, ◌≤◌, ◌<◌, ◌+◌, length, IfOk, OnOk, OnErr, IfSome, is_some};
ghost use Rattle.reply_cache.specs.Limits.{key_limit};
ghost use Rattle.reply_cache.specs.Steps.{Looked};
ghost use Rattle.reply_cache.specs.Cache.{missed};

use crate::cache::ReplyCache;
use crate::key::Key;
use crate::maker::Maker;
use crate::share::LookShare;
use crate::shared::SharedBytes;
use dcop_base::NoMemory;
use std::sync::ledger::Ledger;
use std::sync::{Mutex, Wait};

/// A cache with its lock, for sessions in any threads.
///
/// Each call takes the lock, looks or keeps, and gives the lock back. No call gives the lock away,
/// so whoever waits for it waits only for one that looks or keeps.
#[derive(Drop)]
pub struct SharedCache<M: Maker, A: Ledger, B: Ledger> {
    cache: Mutex<ReplyCache<M, A, B>>,
}

impl<M: Maker, A: Ledger, B: Ledger> SharedCache<M, A, B> {
    /// This cache, with a lock that is free.
    pub fn new(cache: ReplyCache<M, A, B>) -> Self {
        SharedCache {
            cache: Mutex::new(cache),
        }
    }

    /// [`ReplyCache::look`] under the lock. It waits while the lock is held.
    ///
    /// # Errors
    ///
    /// [`NoMemory`] if memory runs out; nothing is changed.
    pub fn look<R: Wait>(
        &self,
        rt: &R,
        share: &mut LookShare<A, B>,
        maker: &mut M,
        key: &Key,
    ) -> Result<Option<SharedBytes>, NoMemory>
        requires parts { (0 < share.old.looks.parts) × (0 < share.old.misses.parts) }
        ensures reply { IfOk result (λ found. IfSome found (λ reply. M.is_reply key.now reply)) }
        ensures counted { OnOk result (share.new.looks.amount ≡ share.old.looks.amount + 1) }
        ensures missed { IfOk result (λ found. share.new.misses.amount ≡ share.old.misses.amount + missed (is_some found)) }
        ensures parts { (share.new.looks.parts ≡ share.old.looks.parts) × (share.new.misses.parts ≡ share.old.misses.parts) }
        ensures step { IfOk result (λ found. M.does maker.old (Looked key.now (is_some found)) maker.new) }
        ensures calls { M.calls maker.new ≡ M.calls maker.old }
        ensures no_step { OnErr result (maker.new ≡ maker.old) }
        ensures uncounted { OnErr result ((share.new.looks.amount ≡ share.old.looks.amount) × (share.new.misses.amount ≡ share.old.misses.amount)) }
    {
        self.cache.lock(rt).look(share, maker, key)
    }

    /// [`ReplyCache::keep`] under the lock. It waits while the lock is held.
    ///
    /// # Errors
    ///
    /// [`NoMemory`] if memory runs out; nothing is changed.
    pub fn keep<R: Wait>(&self, rt: &R, key: Key, value: SharedBytes) -> Result<(), NoMemory>
        requires reply { M.is_reply key value }
        requires short { length key ≤ key_limit }
    {
        self.cache.lock(rt).keep(key, value)
    }

    /// The cache, without its lock. No session is left that shares it.
    pub fn into_inner(self) -> ReplyCache<M, A, B> {
        self.cache.into_inner()
    }
}
