//! The least bounds of the own values.

use dcop_base::Val;

/// The least bounds of the own values, and the lowest values that have them.
#[derive(Clone, Copy, Debug)]
pub(crate) struct Best {
    /// The lowest value with the least LB(d).
    pub lower_value: Val,
    /// LB: the least LB(d).
    pub lower: u64,
    /// The lowest value with the least UB(d).
    pub upper_value: Val,
    /// UB: the least UB(d), if there is one.
    pub upper: Option<u64>,
}
