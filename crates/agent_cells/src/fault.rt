//! Why a visit failed.

ghost use Rattle.std.specs.Prelude.{◌≡◌};

use dcop_base::NoMemory;

/// Why a cell has failed.
#[derive(Clone, Copy, Debug, PartialEq, Eq)]
pub enum VisitFault {
    /// Memory ran out.
    NoMemory,
    /// The greatest of the cell's stamp and the taken stamps was `CAP`, the greatest stamp.
    StampEnd,
}

impl From<NoMemory> for VisitFault {
    ghost use Rattle.agent_cells.specs.declared.fault.VisitFault.TheVariants.{NoMemory as no_memory};

    ghost from_gives = { λ _ e. e ≡ no_memory };

    fn from(_refused: NoMemory) -> Self {
        VisitFault::NoMemory
    }
}
