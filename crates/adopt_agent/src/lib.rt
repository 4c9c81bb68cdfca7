//! The ADOPT agent: asynchronous search with bounds.
//!
//! An [`AdoptAgent`] knows only its part of the problem and its place in the tree. It sends its
//! value to its lower neighbours, and receives bounds on its subtree's cost from its children. It
//! changes to a better value as soon as the lower bound of its value exceeds its threshold. The
//! root ends when its threshold equals its upper bound, and the end then spreads down the tree. The
//! algorithm is adapted from ADOPT (Modi, Shen, Tambe, Yokoo, Artificial Intelligence 161, 2005).
#![tactic(auto)]

mod agent;
mod best;
mod choose;
mod costs;
mod exchange;
mod messages;
mod order;
mod range;
mod send;
mod stage;

pub use agent::AdoptAgent;
