//! The outcome of a run of agents.

use crate::option_list::OptionList;
use crate::standing::Standing;
use dcop_base::{Table, ValList};
use pseudotree::Place;

/// The outcome of a run of agents, as far as an answer reports it. Whoever runs agents returns
/// this. The lists have one item for each agent, in ascending order.
#[derive(Debug, Drop)]
pub struct Outcome {
    /// The values; 0 for an agent that has taken none.
    pub values: ValList,
    /// The UTIL tables of DPOP agents; `None` for an agent that has not joined its tables or is of
    /// another kind.
    pub tables: OptionList<Table>,
    /// The places that token agents found, without the path's sizes; `None` for an agent that has
    /// not ended or is of another kind.
    pub places: OptionList<Place>,
    /// The bounds and the threshold of agent 0, the root of the depth-first tree; 0, none and 0 if
    /// it is not an ADOPT agent.
    pub top: Standing,
    /// The number of messages that were taken.
    pub deliveries: u64,
    /// Whether all agents have ended.
    pub ended: bool,
}
