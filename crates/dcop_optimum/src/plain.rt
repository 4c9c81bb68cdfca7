//! The plain solver: the best of all assignments, found by trying each.

ghost use Rattle.std.specs.Prelude.{◌≡◌, ℕ, ◌+◌, ◌<◌, ◌≤◌, ◌↔◌, min, IfOk, OnOk, MatchBool};
ghost use Rattle.dcop_base.specs.Limits.{assignment_limit};
ghost use Rattle.dcop_base.specs.Table.{product, cell_place, AreWithin};
ghost use Rattle.dcop_base.specs.Problem.{cost, IsAssignment};
ghost use Rattle.dcop_optimum.specs.Optimum.{assignment_count, IsOptimum, IsFirstOptimum};

use dcop_base::{MAX_ASSIGNMENTS, NoMemory, Problem, Val, ValList, cost_of, product_of};
use std::alloc::{AllocError, Global};

/// A best assignment and its cost.
#[derive(Debug, Drop, PartialEq, Eq)]
pub struct Best {
    pub cost: u64,
    pub values: ValList,
}

/// Why [`least_plain`] finds no assignment.
#[derive(Clone, Copy, Debug, PartialEq, Eq)]
pub enum PlainFault {
    /// There are more than [`MAX_ASSIGNMENTS`] assignments. `assignments` is their number, or
    /// [`u64::MAX`] if there are more.
    TooMany { assignments: u64 },
    /// Memory ran out.
    NoMemory,
}

impl From<NoMemory> for PlainFault {
    ghost use Rattle.std.specs.Prelude.{◌≡◌};
    ghost use Rattle.dcop_optimum.specs.declared.plain.PlainFault.TheVariants.{NoMemory as no_memory};

    ghost from_gives = { λ _ e. e ≡ no_memory };

    fn from(_refused: NoMemory) -> Self {
        PlainFault::NoMemory
    }
}

impl From<AllocError> for PlainFault {
    ghost use Rattle.std.specs.Prelude.{◌≡◌};
    ghost use Rattle.dcop_optimum.specs.declared.plain.PlainFault.TheVariants.{NoMemory as no_memory};

    ghost from_gives = { λ _ e. e ≡ no_memory };

    fn from(_refused: AllocError) -> Self {
        PlainFault::NoMemory
    }
}

/// The optimum, and the first optimal assignment in lexicographic order of the values, variable 0
/// first.
///
/// Takes time for the cost of every assignment.
///
/// # Errors
///
/// [`PlainFault::TooMany`] exactly if there are more than [`MAX_ASSIGNMENTS`] assignments;
/// [`PlainFault::NoMemory`] if memory runs out.
pub fn least_plain(alloc: Global, problem: &Problem) -> Result<Best, PlainFault>
    ensures cost { IfOk result (λ best. best.cost ≡ cost problem.now best.values) }
    ensures optimum { IfOk result (λ best. IsOptimum problem.now best.cost) }
    ensures first { IfOk result (λ best. IsFirstOptimum problem.now best.values) }
    ensures few { OnOk result (assignment_count problem.now ≤ assignment_limit) }
    ensures many { (assignments : ℕ) → (result ≡ Err (PlainFault.TooMany assignments))
        ↔ ((assignment_limit < assignment_count problem.now)
        × (assignments ≡ min (assignment_count problem.now) u64.MAX)) }
{
    let assignments = assignments_of(problem.sizes.as_slice());
    if assignments > MAX_ASSIGNMENTS {
        return Err(PlainFault::TooMany { assignments });
    }
    let variables = problem.sizes.as_slice().len();
    let mut values = vec![in alloc; Val(0); variables]?;
    let mut best = vec![in alloc; Val(0); variables]?;
    let cost = try_all(problem, &mut values, &mut best);
    Ok(Best {
        cost,
        values: ValList::from_vec(best),
    })
}

/// Tries every assignment, starting from all zeros. Leaves the first optimal one in `best` and
/// returns its cost.
fn try_all(problem: &Problem, values: &mut [Val], best: &mut [Val]) -> u64
    requires within { IsAssignment problem.now values.old }
    requires first { cell_place problem.now.sizes values.old ≡ 0 }
    requires same { best.old ≡ values.old }
    ensures best { IsFirstOptimum problem.now best.new }
    ensures cost { result ≡ cost problem.now best.new }
{
    let mut least = cost_of(problem, values);
    while advance(problem.sizes.as_slice(), values) {
        let cost = cost_of(problem, values);
        if cost < least {
            least = cost;
            best.copy_from_slice(values);
        }
    }
    least
}

/// The number of assignments, or [`u64::MAX`] if there are more.
fn assignments_of(sizes: &[u16]) -> u64
    ensures { result ≡ min (product sizes.now) u64.MAX }
{
    product_of(sizes) as u64
}

/// Replaces the values by the next assignment in lexicographic order. After the last one comes the
/// first again, and the result is `false`.
fn advance(sizes: &[u16], values: &mut [Val]) -> bool
    requires { AreWithin sizes.now values.old }
    ensures within { AreWithin sizes.now values.new }
    ensures next { MatchBool result
        (cell_place sizes.now values.new ≡ cell_place sizes.now values.old + 1)
        ((cell_place sizes.now values.old + 1 ≡ product sizes.now)
        × (cell_place sizes.now values.new ≡ 0)) }
{
    let Some((size, sizes)) = sizes.split_first() else {
        return false;
    };
    let Some((value, values)) = values.split_first_mut() else {
        return false;
    };
    if advance(sizes, values) {
        return true;
    }
    let next = value.0 + 1;
    let within = next < *size;
    *value = Val(if within { next } else { 0 });
    within
}
