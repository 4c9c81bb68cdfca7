//! Contexts of ADOPT agents, and the plain definitions of their bounds.
//!
//! An [`AgentContext`] is a finite map from variables to values: what an agent knows of the values
//! of its ancestors, or what a bound depends on. Contracts see it as the list of its pairs, with
//! strictly ascending variables. `specs/` also defines `LB(d)`, `UB(d)`, their least values, reset,
//! allotting and merging, over plain lists. The crates above use these definitions for the bounds
//! that they hold and change.
//!
//! The bounds are those of ADOPT (Modi, Shen, Tambe, Yokoo, Artificial Intelligence 161, 2005).
#![tactic(auto)]

mod context;
mod pairs;
mod sizes;

pub use context::AgentContext;
pub use sizes::size_beside;
