//! A cache of replies.

ghost use Rattle.std.specs.Prelude.{◌≡◌, ◌≤◌, ◌<◌, ◌+◌, ◌++◌, ◌∷◌, [], length, IfOk, OnOk, OnErr, IfSome, is_some, vec_len, vec_capacity};
ghost use Rattle.std.specs.Map.{lookup};
ghost use Rattle.std.specs.NonZero.{non_zero_usize_get};
ghost use Rattle.lru.specs.LruCache.{lru_cache, promoted, put_entries};
ghost use Rattle.reply_cache.specs.Limits.{entry_limit, key_limit};
ghost use Rattle.reply_cache.specs.Steps.{Looked};
ghost use Rattle.reply_cache.specs.Cache.{fresh_cache, same_key, reply_at, looked_at, kept_at, IsFirst, missed, misses_of};

use crate::key::Key;
use crate::look::Look;
use crate::maker::Maker;
use crate::share::LookShare;
use crate::shared::SharedBytes;
use dcop_base::NoMemory;
use lru::LruCache;
use std::alloc::Global;
use std::marker::{Model, PhantomData};
use std::num::NonZeroUsize;
use std::sync::ledger::{Book, Ledger};

/// A cache that keeps the last used replies of this type of maker, and notes for each look whether
/// it found one.
///
/// Contracts see the record of its entries and of its looks; each entry is a key and the reply to
/// it. The total of one book is the number of looks, and that of the other the number of looks that
/// found nothing.
#[derive(Drop)]
pub struct ReplyCache<M: Maker, A: Ledger, B: Ledger> {
    entries: LruCache<Key, SharedBytes>,
    finds: Vec<bool>,
    looks: Book<A>,
    misses: Book<B>,
    of: PhantomData<M>,
}

impl<M: Maker, A: Ledger, B: Ledger> Model for ReplyCache<M, A, B> {
    ghost use Rattle.std.specs.Prelude.{◌≡◌, length};
    ghost use Rattle.reply_cache.specs.Cache.{CacheState, AreReplies, misses_of};

    ghost Value = { CacheState };

    ghost view = { λ c. record { kept = c.entries; finds = c.finds.items } };

    ghost invariant = { λ c. AreReplies M.is_reply c.entries.entries × (c.looks.total ≡ length c.finds.items) × (c.misses.total ≡ misses_of c.finds.items) };
}

impl<M: Maker, A: Ledger, B: Ledger> ReplyCache<M, A, B> {
    /// A cache of at most `entries` entries, 1 to [`MAX_ENTRIES`]. It keeps none yet.
    ///
    /// [`MAX_ENTRIES`]: crate::MAX_ENTRIES
    ///
    /// # Errors
    ///
    /// [`NoMemory`] if memory runs out.
    pub fn new(
        alloc: Global,
        entries: u32,
        looks: Book<A>,
        misses: Book<B>,
    ) -> Result<Self, NoMemory>
        requires some { (0 < entries) × (entries ≤ entry_limit) }
        requires fresh { (looks.total ≡ 0) × (misses.total ≡ 0) }
        ensures { IfOk result (λ c. c ≡ fresh_cache entries) }
    {
        Ok(ReplyCache {
            entries: LruCache::new(alloc, NonZeroUsize::new(entries as usize).unwrap())?,
            finds: Vec::new(alloc),
            looks,
            misses,
            of: PhantomData,
        })
    }

    /// Looks up the reply to a key; `None` exactly if none is kept. The cache stays one of the
    /// owners of the reply.
    ///
    /// The look is counted in the share, the maker learns of it, and the entry that was found comes
    /// first. No key and no reply is copied, so only comparing the keys takes longer for longer
    /// ones.
    ///
    /// # Errors
    ///
    /// [`NoMemory`] if memory runs out; nothing is changed.
    pub fn look(
        &mut self,
        share: &mut LookShare<A, B>,
        maker: &mut M,
        key: &Key,
    ) -> Result<Option<SharedBytes>, NoMemory>
        requires parts { (0 < share.old.looks.parts) × (0 < share.old.misses.parts) }
        ensures found { IfOk result (λ found. found ≡ reply_at self.old key.now) }
        ensures looked { OnOk result (self.new ≡ looked_at self.old key.now) }
        ensures reply { IfOk result (λ found. IfSome found (λ reply. M.is_reply key.now reply)) }
        ensures counted { OnOk result (share.new.looks.amount ≡ share.old.looks.amount + 1) }
        ensures missed { IfOk result (λ found. share.new.misses.amount ≡ share.old.misses.amount + missed (is_some found)) }
        ensures parts { (share.new.looks.parts ≡ share.old.looks.parts) × (share.new.misses.parts ≡ share.old.misses.parts) }
        ensures step { IfOk result (λ found. M.does maker.old (Looked key.now (is_some found)) maker.new) }
        ensures calls { M.calls maker.new ≡ M.calls maker.old }
        ensures unchanged { OnErr result (self.new ≡ self.old) }
        ensures no_step { OnErr result (maker.new ≡ maker.old) }
        ensures uncounted { OnErr result ((share.new.looks.amount ≡ share.old.looks.amount) × (share.new.misses.amount ≡ share.old.misses.amount)) }
    {
        self.finds.reserve(1)?;
        let found = found_reply(&mut self.entries, key)?;
        note(
            &mut self.finds,
            &mut self.looks,
            &mut self.misses,
            share,
            found.is_some(),
        );
        maker.note(Look::new(key, found.is_some()));
        Ok(found)
    }

    /// Keeps the reply to a key of at most [`MAX_KEY`] bytes.
    ///
    /// If the key already has an entry, that entry gets this reply and comes first. Otherwise a new
    /// entry comes first, and the last one is dropped if the cache was full.
    ///
    /// [`MAX_KEY`]: crate::MAX_KEY
    ///
    /// # Errors
    ///
    /// [`NoMemory`] if memory runs out; nothing is changed.
    pub fn keep(&mut self, key: Key, value: SharedBytes) -> Result<(), NoMemory>
        requires reply { M.is_reply key value }
        requires short { length key ≤ key_limit }
        ensures kept { OnOk result (self.new ≡ kept_at self.old key value) }
        ensures unchanged { OnErr result (self.new ≡ self.old) }
    {
        self.entries.put(key, value)?;
        Ok(())
    }

    /// How many looks there were.
    pub fn looks(&self) -> u64
        ensures { result ≡ length self.now.finds }
    {
        self.finds.len() as u64
    }

    /// A proof step: a share that has all parts of both counts, that of looks and that of misses,
    /// has counted all looks and all misses of the cache. It changes no count.
    pub fn audit(&mut self, share: &mut LookShare<A, B>)
        requires whole { (share.old.looks.parts ≡ A.parts) × (share.old.misses.parts ≡ B.parts) }
        ensures same { self.new ≡ self.old }
        ensures looks { share.new.looks.amount ≡ length self.old.finds }
        ensures misses { share.new.misses.amount ≡ misses_of self.old.finds }
        ensures amounts { (share.new.looks.amount ≡ share.old.looks.amount) × (share.new.misses.amount ≡ share.old.misses.amount) }
        ensures parts { (share.new.looks.parts ≡ share.old.looks.parts) × (share.new.misses.parts ≡ share.old.misses.parts) }
    {
        self.looks.audit(&mut share.looks);
        self.misses.audit(&mut share.misses);
    }
}

// The reply that is kept for a key, with one more owner. Its entry comes first.
//
// The first entry is tried first. If it is the key's, nothing moves, and two keys are compared once.
fn found_reply(
    entries: &mut LruCache<Key, SharedBytes>,
    key: &Key,
) -> Result<Option<SharedBytes>, NoMemory>
    ensures found { IfOk result (λ found. found ≡ lookup (same_key key.now) entries.old.entries) }
    ensures moved { OnOk result (entries.new ≡ lru_cache (promoted (same_key key.now) entries.old.entries) entries.old.cap) }
    ensures unchanged { OnErr result (entries.new ≡ entries.old) }
{
    if let Some(reply) = first_reply(entries, key) {
        return Ok(Some(reply.share()?));
    }
    let found = kept_reply(entries, key)?;
    entries.promote(key);
    Ok(found)
}

// The reply of the first entry, if that is the key's.
fn first_reply<'a>(entries: &'a LruCache<Key, SharedBytes>, key: &Key) -> Option<&'a SharedBytes>
    ensures { IfSome result (λ reply. IsFirst key.now reply.now entries.now.entries) }
{
    match entries.peek_mru() {
        Some((first, reply)) if key == first => Some(reply),
        _ => None,
    }
}

// The reply that is kept for a key, with one more owner.
fn kept_reply(
    entries: &LruCache<Key, SharedBytes>,
    key: &Key,
) -> Result<Option<SharedBytes>, NoMemory>
    ensures { IfOk result (λ found. found ≡ lookup (same_key key.now) entries.now.entries) }
{
    match entries.peek(key) {
        Some(reply) => Ok(Some(reply.share()?)),
        None => Ok(None),
    }
}

// Notes a look, and whether it found an entry.
fn note<A: Ledger, B: Ledger>(
    finds: &mut Vec<bool>,
    looks: &mut Book<A>,
    misses: &mut Book<B>,
    share: &mut LookShare<A, B>,
    found: bool,
)
    requires parts { (0 < share.old.looks.parts) × (0 < share.old.misses.parts) }
    requires room { vec_len finds.old < vec_capacity finds.old }
    ensures noted { finds.new.items ≡ finds.old.items ++ found ∷ [] }
    ensures looks { looks.new.total ≡ looks.old.total + 1 }
    ensures misses { misses.new.total ≡ misses.old.total + missed found }
    ensures counted_looks { share.new.looks.amount ≡ share.old.looks.amount + 1 }
    ensures counted_misses { share.new.misses.amount ≡ share.old.misses.amount + missed found }
    ensures parts { (share.new.looks.parts ≡ share.old.looks.parts) × (share.new.misses.parts ≡ share.old.misses.parts) }
{
    finds.push_reserved(found);
    looks.add(&mut share.looks, 1);
    if !found {
        misses.add(&mut share.misses, 1);
    }
}
