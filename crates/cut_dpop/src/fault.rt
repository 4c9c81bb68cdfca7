//! Why a cut is refused.

use dcop_base::NoMemory;

/// Why [`run_cut`](crate::run_cut) gives no answer.
#[derive(Clone, Copy, Debug, PartialEq, Eq)]
pub enum CutFault {
    /// The cut has more than [`MAX_TURNS`](dcop_base::MAX_TURNS) turns. `turns` is their number, or
    /// [`u64::MAX`] if that is less.
    TooMany { turns: u64 },
    /// The tables that are sent in one turn, or in all turns if tables are kept, have more than
    /// [`MAX_SENT_CELLS`](dcop_base::MAX_SENT_CELLS) cells. `cells` is their number, or
    /// [`u64::MAX`] if that is less.
    Total { cells: u64 },
    /// Memory ran out.
    NoMemory,
}

impl From<NoMemory> for CutFault {
    ghost use Rattle.std.specs.Prelude.{◌≡◌};
    ghost use Rattle.cut_dpop.specs.declared.fault.CutFault.TheVariants.{NoMemory as no_memory};

    ghost from_gives = { λ _ e. e ≡ no_memory };

    fn from(_refused: NoMemory) -> Self {
        CutFault::NoMemory
    }
}
