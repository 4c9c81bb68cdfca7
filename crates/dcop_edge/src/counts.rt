//! How many bytes each read gave, for proofs alone.

ghost use Rattle.std.specs.Prelude.{◌≡◌, List, ℕ, [], ◌∷◌, ◌++◌};
ghost use Rattle.std.specs.Borrow.{ftrue};

use std::marker::Model;

/// How many bytes each read of a source gave so far, in order. Only contracts see the numbers, as
/// `counts`: it takes no memory, and its functions do nothing at run time.
#[derive(Drop)]
pub(crate) struct ReadCounts {
    pub(crate) ghost counts: { List ℕ },
}

impl Model for ReadCounts {
    ghost also_owns = { λ _. ftrue };
}

// A struct with `also_owns` is not `Send` by itself. This one owns nothing.
unsafe impl Send for ReadCounts {}

impl ReadCounts {
    /// No read so far.
    pub(crate) fn new() -> ReadCounts
        ensures { result.counts ≡ [] }
    {
        ReadCounts {}
    }

    /// One read more, which gave so many bytes.
    pub(crate) fn and(&self, _count: usize) -> ReadCounts
        ensures { result.counts ≡ self.now.counts ++ _count ∷ [] }
    {
        ReadCounts {}
    }
}
