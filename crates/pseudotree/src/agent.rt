//! What an agent knows of its place in a tree.

use dcop_base::{SizeList, VarId, VarList};

/// An agent's place in a tree.
#[derive(Debug, Drop)]
pub struct Place {
    /// The agent's own variable.
    pub me: VarId,
    /// The proper ancestors of the variable, from the root down.
    pub path: VarList,
    /// The number of values of each variable of the path.
    pub path_sizes: SizeList,
    /// The children of the variable, ascending.
    pub children: VarList,
    /// The neighbours of the variable that are its descendants, ascending.
    pub lower: VarList,
}
