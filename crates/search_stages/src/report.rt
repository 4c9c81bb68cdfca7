//! The report of a search.

use dcop_base::ValList;
use problem_text::Goal;

/// How a search ended.
#[derive(Clone, Copy, Debug, PartialEq, Eq)]
pub enum SearchEnding {
    /// An assignment was found, and the search has ended.
    Solved,
    /// The budget was reached before the search had ended.
    Spent,
    /// The search has ended, and no assignment is better than what was asked for.
    NoneBetter,
}

/// An assignment that was found.
#[derive(Debug, Drop)]
pub struct Found {
    /// Its sum in the file's own tables.
    pub cost: u64,
    /// The values, one for each variable, in order.
    pub values: ValList,
}

/// What a search found: an assignment, and a bound on the best sum.
#[derive(Debug, Drop)]
pub struct SearchReport {
    /// How the search ended.
    pub ending: SearchEnding,
    /// Whether the least or the greatest sum was sought.
    pub goal: Goal,
    /// The requested error: the most by which the sum of a solved answer may miss the best one.
    pub error: u64,
    /// The number of nodes that were visited in all stages.
    pub nodes: u64,
    /// The bound: a lower bound on each assignment's sum, or for goal max an upper one.
    pub bound: u64,
    /// The best assignment that was found, if any.
    pub found: Option<Found>,
}
