//! What an agent knows of a problem.

use crate::number::VarId;
use crate::sequence::{SizeList, TableList, VarList};

/// The part of a problem that one agent knows. The agent works from this alone.
#[derive(Debug, Drop)]
pub struct Private {
    /// The agent's variable.
    pub me: VarId,
    /// The number of values of the variable.
    pub size: u16,
    /// The variables that share a table or a joint with it, ascending.
    pub neighbours: VarList,
    /// The number of values of each neighbour, in the neighbours' order.
    pub neighbour_sizes: SizeList,
    /// The tables that name the variable, in the problem's order.
    pub tables: TableList,
}
