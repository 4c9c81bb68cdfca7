//! The cost of each value of an agent's own variable.
//!
//! [`add_table`] adds a table's cells to a row of costs, one for each own value. The other
//! variables have the values that a context gives them. The DPOP agent uses it to find its best
//! value when values arrive, and the ADOPT agent to find the cost of its values by its own tables.
//! It is a crate of its own since the DPOP agent and the ADOPT agent both use it, and neither
//! stands on the other.
#![tactic(auto)]

mod adding;

pub use adding::add_table;
