//! Why a piece of a stream is not taken.

ghost use Rattle.std.specs.Prelude.{◌≡◌};
ghost use Rattle.wire_frames.specs.declared.fault.FrameFault.TheVariants.{NoMemory as no_memory};

use dcop_base::NoMemory;

/// Why a reader takes no more of a stream, or not this piece of it.
#[derive(Clone, Copy, Debug, PartialEq, Eq)]
pub enum FrameFault {
    /// A length field is above the reader's limit.
    TooLong {
        /// The position of that field in the stream, from 0. Positions from 2^64 - 1 up are all
        /// given as 2^64 - 1.
        place: u64,
    },
    /// Memory ran out. No clause says when.
    NoMemory,
}

impl From<NoMemory> for FrameFault {
    ghost from_gives = { λ _ e. e ≡ no_memory };

    fn from(_refused: NoMemory) -> Self {
        FrameFault::NoMemory
    }
}
