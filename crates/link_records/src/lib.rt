//! Links between the nodes of agents, and on each the first difference between what was drained and
//! what arrived.
//!
//! An exchange drains what agents have sent to agents of another node, and something arrives there.
//! A [`KeptLink`] compares the two lists as each exchange passes, and keeps only its first
//! difference, so its memory does not grow with the run. Contracts see it as a `Wire` of
//! `worker_laws`, with all that it has passed: proofs know the passages by a history that does not
//! exist at run time. If each exchange took on each link exactly what it drained there, the law of
//! `worker_laws` holds of the agents' run. [`take_difference`] says whether that is so, and if not,
//! where it first fails.
#![tactic(auto)]

mod differ;
mod first;
mod history;
mod kept;
mod passage;
mod place;
mod same;

pub use differ::take_difference;
pub use kept::{KeptLink, LinkDifference};
