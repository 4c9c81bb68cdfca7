//! Reports: what a run of a method found.

use crate::certificate::Certificate;
use dcop_base::ValList;
use problem_text::Goal;

/// How a run ended.
#[derive(Clone, Copy, Debug, PartialEq, Eq)]
pub enum Ending {
    /// The gap between the bounds is at most the requested error.
    Solved,
    /// The budget of deliveries was spent before that.
    Spent,
}

/// The method that was run.
#[derive(Clone, Copy, Debug, PartialEq, Eq)]
pub enum Method {
    /// Plain search: all assignments, one after the other, in one place.
    Plain,
    /// DPOP.
    Dpop,
    /// ADOPT.
    Adopt,
    /// DPOP once for each choice of values of some cut variables.
    Cut,
}

/// What a run found: values, their cost, and bounds on the best cost.
#[derive(Debug, Drop)]
pub struct Report {
    /// How the run ended.
    pub status: Ending,
    /// The method that was run.
    pub method: Method,
    /// Whether the least or the greatest cost was sought.
    pub goal: Goal,
    /// The requested error: how far the cost may be from the best cost. It is 0 for every method
    /// but ADOPT.
    pub error: u64,
    /// The deliveries of the method's run alone. It is 0 for plain search.
    pub deliveries: u64,
    /// The cost of the values.
    pub cost: u64,
    /// A lower bound of the best cost, which is the least or the greatest cost, by the goal.
    pub lower: u64,
    /// An upper bound of the best cost, which is the least or the greatest cost, by the goal.
    pub upper: u64,
    /// The values, one for each variable, in order.
    pub values: ValList,
    /// The evidence for the bounds, if it was requested.
    pub certificate: Option<Certificate>,
}
