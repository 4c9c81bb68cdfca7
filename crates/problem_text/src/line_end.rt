//! Why the reading of a line ends early.

ghost use Rattle.std.specs.Prelude.{◌≡◌};
ghost use Rattle.problem_text.specs.declared.line_end.LineEnd.TheVariants.{NoMemory as no_memory};

use dcop_base::NoMemory;
use std::alloc::{AllocError, AllocFailed};

/// Why reading a line gives no result; `K` is the kind of a fault.
#[derive(Clone, Copy, Debug)]
pub enum LineEnd<K> {
    /// The line's first fault.
    Fault(K),
    /// Memory ran out.
    NoMemory,
}

impl<K> From<NoMemory> for LineEnd<K> {
    ghost from_gives = { λ _ e. e ≡ no_memory };

    fn from(_refused: NoMemory) -> Self {
        LineEnd::NoMemory
    }
}

impl<K> From<AllocError> for LineEnd<K> {
    ghost from_gives = { λ _ e. e ≡ no_memory };

    fn from(_refused: AllocError) -> Self {
        LineEnd::NoMemory
    }
}

impl<K, T: Drop> From<AllocFailed<T>> for LineEnd<K> {
    ghost from_gives = { λ _ e. e ≡ no_memory };

    fn from(_refused: AllocFailed<T>) -> Self {
        LineEnd::NoMemory
    }
}
