//! The bounds of an ADOPT agent: one entry for each own value and child.
//!
//! [`Bounds`] are flat lists of lower bounds, upper bounds, shares and contexts. Each own value has
//! a row in them, with one entry for each child. The totals of each row are kept as well, so that
//! `LB(d)` and `UB(d)` are one addition each. Contracts see the rows of entries. Every call is a
//! definition of [`adopt_context`] applied to them: entries are reset, a row is allotted, an entry
//! is merged.
#![tactic(auto)]

mod allot;
mod bounds;
mod forget;
mod interval;
mod totals;

pub use bounds::Bounds;
