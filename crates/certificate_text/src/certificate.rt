//! Certificates: the evidence by which a reader can check the bounds of a report.

ghost use Rattle.std.specs.Prelude.{◌≡◌};
ghost use Rattle.certificate_text.specs.Turns.{first_tables};

use dcop_base::{CellList, Sequence, ValList, VarId, VarList};
use run_log::Log;

/// The evidence that a report gives for its bounds.
#[derive(Debug, Drop)]
pub enum Certificate {
    /// The UTIL table of each agent of a run of DPOP, in the order of the report's lines.
    Tables(UtilList),
    /// The events of all agents of a run of ADOPT, in the order of the report's lines.
    Log(Log),
    /// The UTIL tables of each turn of a cut.
    Cut {
        /// The cut variables, in the order of cutting.
        cut: VarList,
        /// The turns: all lists of values of the cut variables, in lexicographic order.
        turns: CutList,
    },
}

/// A turn of a cut: a run of DPOP on the slice in which the cut variables are fixed to these values
/// and have size 1.
#[derive(Debug, Drop)]
pub struct Turn {
    /// A value for each cut variable, in the order of cutting.
    pub values: ValList,
    /// The UTIL table of each agent of the run on the slice, in the order of the report's lines.
    pub tables: UtilList,
}

/// The turns of a cut.
pub type CutList = Sequence<Turn>;

/// The UTIL table of one agent, which it sends to its parent if it has one.
///
/// A cell is the least cost of the agent's subtree if the variables of the scope have the cell's
/// values. The last variable of the scope varies fastest.
#[derive(Debug, Drop)]
pub struct Util {
    /// The agent's variable.
    pub var: VarId,
    /// The parent's variable; `None` at the root.
    pub parent: Option<VarId>,
    /// The variables of the separator, which is empty at the root.
    pub scope: VarList,
    /// A cell for each choice of values of the scope. The root has one cell, the least total cost.
    pub cells: CellList,
}

/// UTIL tables.
pub type UtilList = Sequence<Util>;

/// The tables of the first of these turns of a cut; none if there is no turn.
pub fn first_tables(turns: &[Turn]) -> &[Util]
    ensures { result.now ≡ first_tables turns.now }
{
    match turns.first() {
        Some(turn) => turn.tables.as_slice(),
        None => &[],
    }
}
