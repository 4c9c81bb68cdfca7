//! Why the lines of a session end early.

use edit_text::EditKind;
use std::alloc::AllocFailed;

/// Why the lines of a session end early.
#[derive(Clone, Copy, Debug)]
pub(crate) enum Stop {
    /// A line is refused for a fault of this kind.
    Refused { line: u64, kind: EditKind },
    /// Memory ran out.
    NoMemory,
}

impl<T: Drop> From<AllocFailed<T>> for Stop {
    ghost use Rattle.std.specs.Prelude.{◌≡◌};
    ghost use Rattle.solve_edit.specs.declared.stop.Stop.TheVariants.{NoMemory as no_memory};

    ghost from_gives = { λ _ e. e ≡ no_memory };

    fn from(_refused: AllocFailed<T>) -> Self {
        Stop::NoMemory
    }
}
