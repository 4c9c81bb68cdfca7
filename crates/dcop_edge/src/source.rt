//! Where bytes come from.

ghost use Rattle.std.specs.Prelude.{◌≡◌, ℕ, List, [], ◌∷◌, ◌++◌, Option, IfOk, OnErr};
ghost use Rattle.dcop_edge.specs.Faults.{HasCause, HasReadCause};
ghost use Rattle.dcop_edge.specs.Source.{Gives, GivesBehind, count_of};

use crate::fault::{Failed, ReadFault};

/// A source of bytes, read in order to its end.
pub trait Source {
    /// The bytes still to be given, if the source knows them. A source in memory does; the real one
    /// does not.
    ghost left: { Self → Option (List ℕ) };

    /// The number of its calls that failed.
    ghost faults: { Self → ℕ };

    /// How many bytes each of its reads gave so far, in order. A read that failed gave 0.
    ghost gave: { Self → List ℕ };

    /// Puts the next bytes at the front of `into` and returns how many they are: at most its
    /// length. If `into` is not empty, 0 means the end of the input.
    ///
    /// # Errors
    ///
    /// [`Failed`] if the source failed in this call. It then gave no bytes, and `into` is as it
    /// was.
    fn read(&mut self, into: &mut [u8]) -> Result<usize, Failed>
        ensures given { IfOk result (Gives (left self.old) (left self.new) into.old into.new) }
        ensures none_taken { OnErr result (left self.new ≡ left self.old) }
        ensures unfilled { OnErr result (into.new ≡ into.old) }
        ensures cause { HasCause (faults self.old) (faults self.new) result }
        ensures counted { gave self.new ≡ gave self.old ++ count_of result ∷ [] };

    /// Adds the next bytes to the end of `bytes` and returns how many they are: at most `most`. If
    /// `most` is not 0, 0 means the end of the input.
    ///
    /// # Errors
    ///
    /// [`ReadFault::Failed`] if the source failed in this call, [`ReadFault::NoMemory`] if memory
    /// runs out. In both cases the source gave no bytes, and `bytes` is as it was.
    fn read_behind(&mut self, bytes: &mut Vec<u8>, most: usize) -> Result<usize, ReadFault>
        ensures given { IfOk result (GivesBehind (left self.old) (left self.new) bytes.old.items bytes.new.items most) }
        ensures none_taken { OnErr result (left self.new ≡ left self.old) }
        ensures same { OnErr result (bytes.new.items ≡ bytes.old.items) }
        ensures cause { HasReadCause (faults self.old) (faults self.new) result }
        ensures counted { gave self.new ≡ gave self.old ++ count_of result ∷ [] };
}
