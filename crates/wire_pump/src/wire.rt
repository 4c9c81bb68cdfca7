//! One end of a stream of bytes in both directions.

ghost use Rattle.std.specs.Prelude.{◌≡◌};
ghost use Rattle.futures.specs.Poll.{OnPending};
ghost use Rattle.futures.specs.Task.{IsArmed, Keeps};
ghost use Rattle.wire_pump.specs.Wire.{Told, AfterWrite, AfterRead, Reach};

use dcop_edge::Failed;
use futures::task::{Context, Poll};

/// One end of a stream of bytes in both directions.
///
/// Two wires can be joined: then each receives what the other sends, in order. Every poll of either
/// keeps them joined, and so does [`Wire::beside`] of the two. [`Wire::beside`] of two wires that
/// are apart changes neither, so each stays joined to the wire to which it was joined.
pub trait Wire: Drop {
    /// What it tells: the bytes that it has sent and received, if they are known, and its counts.
    ghost told: { Self → Told };

    /// The two wires are the ends of one stream, which carries the bytes as they are sent.
    ghost is_joined: { Self → Self → Type 0 };

    /// The two wires are known not to be the two ends of one stream.
    ghost are_apart: { Self → Self → Type 0 };

    /// Takes bytes from the front of `bytes` and sends them. The answer is how many: at least one
    /// if there are any. The count of bytes sent rises by as many.
    ///
    /// It is pending if it can take none now. Then the task is registered or already woken, and the
    /// count of waits of writes rose.
    ///
    /// # Errors
    ///
    /// [`Failed`] if the wire failed in this call: its count of faults rose.
    fn poll_write(&mut self, cx: &mut Context<'_>, bytes: &[u8]) -> Poll<Result<usize, Failed>>
        ensures written { AfterWrite (told self.old) bytes.now result (told self.new) }
        ensures joined { (w : Self) → is_joined self.old w → is_joined self.new w }
        ensures joins { (w : Self) → is_joined w self.old → is_joined w self.new }
        ensures registered { OnPending result (IsArmed cx.new) }
        ensures kept { Keeps cx.old cx.new };

    /// Puts the next bytes that came into the front of `into`. The answer is how many: at least one
    /// if `into` has room for any. The count of bytes received rises by as many. Nothing else of
    /// `into` is written, and none of it if the call waits or fails.
    ///
    /// It is pending if there are none now. Then the task is registered or already woken, and the
    /// count of waits of reads rose.
    ///
    /// # Errors
    ///
    /// [`Failed`] if the wire failed in this call: its count of faults rose. The end of the stream
    /// is such a fault.
    fn poll_read(&mut self, cx: &mut Context<'_>, into: &mut [u8]) -> Poll<Result<usize, Failed>>
        ensures given { AfterRead (told self.old) into.old into.new result (told self.new) }
        ensures joined { (w : Self) → is_joined self.old w → is_joined self.new w }
        ensures joins { (w : Self) → is_joined w self.old → is_joined w self.new }
        ensures registered { OnPending result (IsArmed cx.new) }
        ensures kept { Keeps cx.old cx.new };

    /// Lets a proof look at two ends together: if the two are joined, each has received a prefix of
    /// what the other has sent. What they tell does not change. If they are apart, neither changes.
    /// It takes no memory.
    fn beside(&mut self, other: &mut Self)
        ensures told { (told self.new ≡ told self.old) × (told other.new ≡ told other.old) }
        ensures joined { is_joined self.old other.old → is_joined self.new other.new }
        ensures reach { is_joined self.old other.old → Reach (told self.new) (told other.new) }
        ensures apart { are_apart self.old other.old → (self.new ≡ self.old) × (other.new ≡ other.old) };
}
