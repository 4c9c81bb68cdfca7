//! The bounds of the own values, and the lowest values with the least bounds.

ghost use Rattle.std.specs.Prelude.{◌≡◌, ℕ, ◌+◌, ◌-◌, ◌<◌, ◌≤◌, length, max, nat_lt, slice_index, if◌then◌else◌};
ghost use Rattle.dcop_base.specs.Limits.{amount_limit, size_limit};
ghost use Rattle.adopt_context.specs.Allot.{lower_to};
ghost use Rattle.adopt_context.specs.Context.{is_value};
ghost use Rattle.adopt_context.specs.Bounds.{cap, is_below, lower_at, lowest, upper_at};
ghost use Rattle.protocol_steps.specs.Ranges.{IsBound};
ghost use Rattle.adopt_agent.specs.Best.{AreBest};
ghost use Rattle.adopt_agent.specs.Costs.{cost_where};

use crate::best::Best;
use adopt_bounds::Bounds;
use dcop_base::{CAP, Val};

/// LB(d): the cost of an own value plus the lower bounds of the children.
pub(crate) fn lower_of(costs: &[u64], bounds: &Bounds, d: Val) -> u64
    requires cost { d < length costs.now }
    requires row { d < length bounds.now.rows }
    ensures bound { result ≡ lower_at (slice_index costs.now) bounds.now.rows d }
    ensures within { result ≤ amount_limit }
{
    bounds.lb_of(costs[usize::from(d.0)], d)
}

/// UB(d): the cost of an own value plus the upper bounds of the children; `None` if not all higher
/// neighbours are known or an upper bound is not there.
fn upper_of(costs: &[u64], knows_higher: bool, bounds: &Bounds, d: Val) -> Option<u64>
    requires cost { d < length costs.now }
    requires row { d < length bounds.now.rows }
    ensures bound { result ≡ upper_at (cost_where knows_higher costs.now) bounds.now.rows d }
    ensures within { IsBound result }
{
    let own = if knows_higher {
        Some(costs[usize::from(d.0)])
    } else {
        None
    };
    bounds.ub_of(own, d)
}

/// Whether one upper bound is below another; `None` counts as the largest.
fn is_below(one: Option<u64>, other: Option<u64>) -> bool
    ensures { result ≡ is_below one other }
{
    match (one, other) {
        (Some(one), Some(other)) => one < other,
        (one, None) => one.is_some(),
        (None, Some(_)) => false,
    }
}

/// The lowest own value with the least LB(d).
#[tactic(auto, using(crate::proofs::LowestLaws::lowest_next))]
fn best_lower(costs: &[u64], bounds: &Bounds) -> Val
    requires some { 1 ≤ length costs.now }
    requires few { length costs.now ≤ size_limit }
    requires rows { length bounds.now.rows ≡ length costs.now }
    ensures best { result ≡ lowest nat_lt (lower_at (slice_index costs.now) bounds.now.rows)
        (length costs.now - 1) }
    ensures within { result < length costs.now }
{
    let mut best = Val(0);
    let mut least = lower_of(costs, bounds, best);
    for d in 1..costs.len() {
        let value = Val(d as u16);
        let lower = lower_of(costs, bounds, value);
        if lower < least {
            best = value;
            least = lower;
        }
    }
    best
}

/// The lowest own value with the least UB(d).
#[tactic(auto, using(crate::proofs::LowestLaws::lowest_next))]
fn best_upper(costs: &[u64], knows_higher: bool, bounds: &Bounds) -> Val
    requires some { 1 ≤ length costs.now }
    requires few { length costs.now ≤ size_limit }
    requires rows { length bounds.now.rows ≡ length costs.now }
    ensures best { result ≡ lowest is_below (upper_at (cost_where knows_higher costs.now) bounds.now.rows)
        (length costs.now - 1) }
    ensures within { result < length costs.now }
{
    let mut best = Val(0);
    let mut least = upper_of(costs, knows_higher, bounds, best);
    for d in 1..costs.len() {
        let value = Val(d as u16);
        let upper = upper_of(costs, knows_higher, bounds, value);
        if is_below(upper, least) {
            best = value;
            least = upper;
        }
    }
    best
}

/// The least bounds of the own values, and the lowest values that have them.
pub(crate) fn best_of(costs: &[u64], knows_higher: bool, bounds: &Bounds) -> Best
    requires some { 1 ≤ length costs.now }
    requires few { length costs.now ≤ size_limit }
    requires rows { length bounds.now.rows ≡ length costs.now }
    ensures { AreBest costs.now knows_higher bounds.now.rows result }
{
    let lower_value = best_lower(costs, bounds);
    let upper_value = best_upper(costs, knows_higher, bounds);
    Best {
        lower_value,
        lower: lower_of(costs, bounds, lower_value),
        upper_value,
        upper: upper_of(costs, knows_higher, bounds, upper_value),
    }
}

/// The amount, or the bound if the amount is above it.
pub(crate) fn lower_to(amount: u64, bound: Option<u64>) -> u64
    requires { amount ≤ amount_limit }
    ensures bound { result ≡ lower_to amount bound }
    ensures within { result ≤ amount_limit }
{
    match bound {
        Some(bound) => amount.min(bound),
        None => amount,
    }
}

/// Whether the bound is there and equals this amount.
pub(crate) fn is_value(found: Option<u64>, amount: u64) -> bool
    ensures { result ≡ is_value found amount }
{
    match found {
        Some(bound) => bound == amount,
        None => false,
    }
}

/// What the threshold is raised to, before it is lowered to the upper bound: the lower bound plus
/// the error at the root, and at least the lower bound elsewhere.
pub(crate) fn raised(is_root: bool, threshold: u64, lower: u64, error: u64) -> u64
    requires threshold { threshold ≤ amount_limit }
    requires lower { lower ≤ amount_limit }
    requires error { error ≤ amount_limit }
    ensures amount { result ≡ if is_root then cap (lower + error) else max threshold lower }
    ensures within { result ≤ amount_limit }
{
    if is_root {
        (lower + error).min(CAP)
    } else {
        threshold.max(lower)
    }
}
