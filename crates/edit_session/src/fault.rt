//! Why a session is not opened, and why an edit is refused.

use dcop_base::NoMemory;
use pseudotree::Wide;
use std::alloc::AllocError;

/// Why a session is not opened.
#[derive(Clone, Copy, Debug, PartialEq, Eq)]
pub enum OpenFault {
    /// A joined table, or all that is sent, is too wide in the tree.
    Wide(Wide),
    /// Memory ran out.
    NoMemory,
}

impl From<NoMemory> for OpenFault {
    ghost use Rattle.std.specs.Prelude.{◌≡◌};
    ghost use Rattle.edit_session.specs.declared.fault.OpenFault.TheVariants.{NoMemory as no_memory};

    ghost from_gives = { λ _ e. e ≡ no_memory };

    fn from(_refused: NoMemory) -> Self {
        OpenFault::NoMemory
    }
}

impl From<AllocError> for OpenFault {
    ghost use Rattle.std.specs.Prelude.{◌≡◌};
    ghost use Rattle.edit_session.specs.declared.fault.OpenFault.TheVariants.{NoMemory as no_memory};

    ghost from_gives = { λ _ e. e ≡ no_memory };

    fn from(_refused: AllocError) -> Self {
        OpenFault::NoMemory
    }
}

/// Why an edit is refused.
#[derive(Clone, Copy, Debug, PartialEq, Eq)]
pub enum SetFault {
    /// The number of the table is not below the number of tables.
    NoTable,
    /// The table has no such cell, or the number of given cells is not that of the table.
    NoCell,
    /// A cost is above [`MAX_COST`](dcop_base::MAX_COST).
    CostTooLarge,
    /// The sum of the greatest cells of all tables would exceed [`CAP`](dcop_base::CAP).
    SumTooLarge,
    /// Memory ran out.
    NoMemory,
}

impl From<NoMemory> for SetFault {
    ghost use Rattle.std.specs.Prelude.{◌≡◌};
    ghost use Rattle.edit_session.specs.declared.fault.SetFault.TheVariants.{NoMemory as no_memory};

    ghost from_gives = { λ _ e. e ≡ no_memory };

    fn from(_refused: NoMemory) -> Self {
        SetFault::NoMemory
    }
}

impl From<AllocError> for SetFault {
    ghost use Rattle.std.specs.Prelude.{◌≡◌};
    ghost use Rattle.edit_session.specs.declared.fault.SetFault.TheVariants.{NoMemory as no_memory};

    ghost from_gives = { λ _ e. e ≡ no_memory };

    fn from(_refused: AllocError) -> Self {
        SetFault::NoMemory
    }
}
