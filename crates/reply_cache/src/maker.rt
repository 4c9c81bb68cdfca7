//! What makes replies.

ghost use Rattle.std.specs.Prelude.{◌≡◌, ◌≤◌, ◌<◌, ◌+◌, ◌^◌, ℕ, List, length, IfOk};
ghost use Rattle.std.specs.Thread.{IsSync};
ghost use Rattle.reply_cache.specs.Limits.{reply_limit};
ghost use Rattle.reply_cache.specs.Steps.{Step, Looked, Made};

use crate::look::Look;
use dcop_base::{Bytes, NoMemory};
use std::alloc::Global;
use std::marker::{Send, Sync};
use std::sync::Wait;
use std::thread::Threads;

/// Makes the replies to keys. All makers of a type have the same replies: a key has at most one
/// reply, of at most [`MAX_REPLY`] bytes.
///
/// [`MAX_REPLY`]: crate::MAX_REPLY
pub trait Maker: Send + Drop {
    /// Whether these bytes are the reply to a key.
    ghost is_reply: { List ℕ → List ℕ → Type 0 };

    /// How many times this maker was called.
    ghost calls: { Self → ℕ };

    /// Whether this maker goes from one state to another by this step. Code over any type of maker
    /// knows a step only from [`make`](Maker::make) and from a look of the cache.
    ghost does: { Self → Step → Self → Type 0 };

    /// Makes the reply to a key. The call is counted, even if it fails.
    ///
    /// # Errors
    ///
    /// [`NoMemory`] if memory runs out.
    fn make<R: Threads + Wait + Sync>(
        &mut self,
        rt: &R,
        alloc: Global,
        key: &[u8],
    ) -> Result<Bytes, NoMemory>
        requires calls { calls self.old < 2 ^ 63 }
        requires shared { IsSync R.row }
        ensures made { IfOk result (λ made. is_reply key.now made) }
        ensures counted { calls self.new ≡ calls self.old + 1 }
        ensures step { does self.old (Made key.now) self.new };

    /// Is told of a look at the cache in the same session: its key, and whether a reply was found.
    /// It takes no memory.
    fn note(&mut self, look: Look<'_>)
        ensures uncounted { calls self.new ≡ calls self.old }
        ensures step { does self.old (Looked look.entry.key.now look.entry.found) self.new };

    /// A key has at most one reply. The call does nothing: to use this law, call it.
    fn keys_have_one_reply()
        ensures { (key reply other : List ℕ) → is_reply key reply → is_reply key other → reply ≡ other };

    /// No reply has more than [`MAX_REPLY`] bytes. The call does nothing: to use this law, call it.
    ///
    /// [`MAX_REPLY`]: crate::MAX_REPLY
    fn replies_are_short()
        ensures { (key reply : List ℕ) → is_reply key reply → length reply ≤ reply_limit };
}

/// A maker that can be made whenever one is needed.
pub trait FreshMaker: Maker {
    /// A maker that was not called yet. It takes no memory.
    fn fresh() -> Self
        ensures { Self.calls result ≡ 0 };
}
