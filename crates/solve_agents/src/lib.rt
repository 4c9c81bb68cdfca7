//! Running the agents of a problem, by workers and in one node or several.
//!
//! [`choose_for`], [`reach_for`] and [`settle_for`] run the agents for DPOP, ADOPT and auto, after
//! the search for the depth-first tree. [`find_tree`] and [`tree_for`] make that search alone. If
//! workers do not share the agents of one node, they are played on the calling thread, without
//! cells and links, whether a log is requested or not.
//!
//! It builds on `agent_links` and `agent_workers` for one node, on `node_seats` and `tcp_links` for
//! several, on `delivery_turns` for one thread, and on `solve_methods` for the results.
#![tactic(auto)]

mod agents;
mod choosing;
mod crew;
mod logging;
mod nodes;
mod reaching;
mod settling;

pub use agents::{find_tree, tree_for};
pub use choosing::choose_for;
pub use crew::Crew;
pub use reaching::reach_for;
pub use settling::settle_for;
