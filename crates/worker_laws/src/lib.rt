//! Workers and nodes make a run: if cells are visited in rounds, then all that they did together is
//! one run of their agents.
//!
//! A cell is here a plain value: its agent's view, its stamp, its journal, and all messages that it
//! sent to each peer and took from each, with their stamps. A visit is one activation on what was
//! found on the cell's links, or none. A round settles every link and then visits each cell up to
//! 32 times, with no order between cells. Given only what each cell records of itself, and that
//! links are settled between rounds, the laws show one run of the whole network. Its events are the
//! cells' entries ordered by stamp and then agent, and it is in rounds under the budget.
//!
//! With several nodes, links are settled in this way inside each node. What is sent from node to
//! node passes over wires that are not trusted. An exchange drains each such link, and what arrives
//! at the other end can be taken there. Each exchange records what it drained and what arrived. If
//! the two are the same in every exchange, the rounds in nodes are rounds as in one node, and the
//! same laws hold of them.
//!
//! The laws are about definitions alone. Each is the contract of a call that does nothing: code
//! that needs the law calls it. It is a crate of its own so that cells, workers and nodes stand on
//! the same laws.
#![tactic(auto)]

mod nodes;
mod workers;

pub use nodes::{
    links_are_exchanged, node_stamps_are_few, nodes_are_one, nodes_make_a_run,
    played_nodes_make_runs,
};
pub use workers::{
    cell_stamps_are_few, cells_tell_ends, cells_tell_outcomes, idle_rounds_leave_nothing,
    journals_merge, one_node_is_all, played_cells_make_runs, sprints_are_visits, stamps_are_few,
    totals_add, workers_make_a_run,
};
