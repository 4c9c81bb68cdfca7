//! Why a session stops.

ghost use Rattle.std.specs.Prelude.{◌≡◌};
ghost use Rattle.solve_serve.specs.Ends.{end_of};

use crate::end::SessionEnd;
use dcop_base::NoMemory;

/// Why a session stops before its last turn.
#[derive(Clone, Copy, Debug)]
pub(crate) enum Stop {
    /// The input ended after whole frames.
    Closed,
    /// The input ended inside a frame.
    Cut,
    /// A length field is above the limit, at this place of the stream.
    Long(u64),
    /// The source failed.
    Read,
    /// The sink failed.
    Write,
    /// Memory ran out.
    Memory,
}

impl Stop {
    /// The end of a session that stops for this reason after this many replies.
    pub(crate) fn end(self, served: u64) -> SessionEnd
        ensures { result ≡ end_of self served }
    {
        match self {
            Stop::Closed => SessionEnd::Closed { served },
            Stop::Cut => SessionEnd::Cut { served },
            Stop::Long(place) => SessionEnd::Long { served, place },
            Stop::Read => SessionEnd::Read { served },
            Stop::Write => SessionEnd::Write { served },
            Stop::Memory => SessionEnd::Memory { served },
        }
    }
}

impl From<NoMemory> for Stop {
    ghost use Rattle.solve_serve.specs.declared.stop.Stop.TheVariants.{Memory as memory};

    ghost from_gives = { λ _ e. e ≡ memory };

    fn from(_refused: NoMemory) -> Self {
        Stop::Memory
    }
}
