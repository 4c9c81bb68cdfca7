//! How often a cell was visited, for proofs alone.

ghost use Rattle.std.specs.Prelude.{◌≡◌, ℕ, ◌+◌};
ghost use Rattle.std.specs.Borrow.{ftrue};

use std::marker::Model;

/// How often a cell was visited. Only contracts see the number, as `count`: it takes no memory, and
/// its functions do nothing at run time.
#[derive(Drop)]
pub(crate) struct VisitCount {
    pub(crate) ghost count: { ℕ },
}

impl Model for VisitCount {
    ghost also_owns = { λ _. ftrue };
}

// A struct with `also_owns` is not `Send` by itself. This one owns nothing.
unsafe impl Send for VisitCount {}

impl VisitCount {
    /// No visit so far.
    pub(crate) fn new() -> VisitCount
        ensures { result.count ≡ 0 }
    {
        VisitCount {}
    }

    /// One visit more.
    pub(crate) fn more(_before: &VisitCount) -> VisitCount
        ensures { result.count ≡ _before.now.count + 1 }
    {
        VisitCount {}
    }
}
