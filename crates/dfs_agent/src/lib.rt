//! The token agent: a depth-first search of the graph of a problem, by tokens.
//!
//! A [`TokenAgent`] knows only its part of the problem. A token visits the variables, starting at
//! variable 0. It always goes to the lowest neighbour that has not been visited, and comes back
//! with the subtree that was found. An agent has ended once its whole subtree is found, and then
//! gives its place in the depth-first tree. The search is that of Tarjan, "Depth-first search and
//! linear graph algorithms" (SIAM Journal on Computing, 1972), with messages in place of calls.
#![tactic(auto)]

mod agent;
mod listed;
mod parts;
mod stage;
mod visited;

pub use agent::TokenAgent;
