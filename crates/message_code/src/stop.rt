//! Where the reading of a part of a code stops.

ghost use Rattle.std.specs.Prelude.{◌≡◌};
ghost use Rattle.message_code.specs.declared.stop.Stop.TheVariants.{NoMemory as no_memory};

use dcop_base::NoMemory;

/// Why a part of a code cannot be read.
#[derive(Clone, Copy, Debug)]
pub(crate) enum Stop {
    /// A field is cut short or outside its range. From its first byte on, `left` bytes are left.
    Bad { left: usize },
    /// Memory ran out.
    NoMemory,
}

impl From<NoMemory> for Stop {
    ghost from_gives = { λ _ e. e ≡ no_memory };

    fn from(_refused: NoMemory) -> Self {
        Stop::NoMemory
    }
}
