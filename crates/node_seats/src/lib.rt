//! The agents of a problem in the nodes of a plan, each with the ends of its links.
//!
//! [`seats_over`] makes them for a [`Start`](delivery_core::Start). Two neighbours in one node are
//! linked by a ring. Two neighbours in different nodes are linked over the plan, which keeps the
//! inner ends of the link. A problem in one node needs no plan: `agent_links` makes its agents.
#![tactic(auto)]

mod links;
mod seats;

pub use links::link_over;
pub use seats::seats_over;
