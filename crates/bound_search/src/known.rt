//! What is known about the best assignment.

use dcop_base::ValList;

/// What is known about the best assignment of a problem, from one search to the next.
#[derive(Debug, Drop)]
pub struct Known {
    /// The cost that a better assignment must be below. It is the cost of the best assignment that
    /// was found, or, until one is found, the cost that was asked for, if any.
    pub best: Option<u64>,
    /// Whether an assignment was found.
    pub found: bool,
    /// Its values, one for each variable; until one is found, any values.
    pub values: ValList,
    /// The number of nodes that were visited. A node is a value of a variable after values of all
    /// earlier ones.
    pub nodes: u64,
}
