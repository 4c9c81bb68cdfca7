//! Links between the nodes of agents, over wires that are not trusted, and runs of cells in nodes.
//!
//! A [`NodePlan`] has a pair of wires between each two nodes, and the inner ends of the links
//! between agents of different nodes. In [`run_nodes`] an exchange follows the start and each
//! round. It drains these links, sends over the wires what was drained, and feeds what arrived to
//! the receivers.
//!
//! Nothing that came over a wire is trusted. What an exchange drained of a link and what arrived is
//! compared as it passes, and each link keeps its first difference. The run's end is answered only
//! if no link has one.
#![tactic(auto)]

mod drain;
mod exchange;
mod fault;
mod feed;
mod idle;
mod over;
mod plan;
mod run;
mod seen;
mod weave;

pub use fault::{Difference, NodeFault};
pub use plan::NodePlan;
pub use protocol_steps::RunEnd as NodeEnd;
pub use run::run_nodes;
