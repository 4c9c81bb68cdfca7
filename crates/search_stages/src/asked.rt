//! What a search is asked for.

use solve_words::Format;

/// What the words of a search ask for.
#[derive(Clone, Copy, Debug, PartialEq, Eq)]
pub struct Asked {
    /// The most by which the sum of a solved answer may miss the best one, 0 to 2^62.
    pub error: u64,
    /// The number of nodes after which no value is visited once an assignment is known or if a sum
    /// is to be bettered, 1 to 1,000,000,000,000.
    pub budget: u64,
    /// The most cells that all bounds together keep at a time, 1,024 to 268,435,456.
    pub cells: u64,
    /// The sum of the file that is to be bettered, 0 to 2^62; `None` if any assignment is sought.
    pub better: Option<u64>,
    /// The format of the problem.
    pub format: Format,
}
