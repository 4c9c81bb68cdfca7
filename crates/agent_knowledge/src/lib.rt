//! What each agent knows of a problem, found in one pass over its tables and joints.
//!
//! [`acquaintances`] gives what each agent knows without the costs, and [`add_tables`] adds the
//! tables that name its variable; [`privates`] does both. For one variable alone, `acquaintance`
//! and `private` of `dcop_base` do the same by a pass over the whole problem.
#![tactic(auto)]

mod neighbours;
mod parts;
mod row;
mod tables;

pub use parts::{acquaintances, add_tables, privates};
