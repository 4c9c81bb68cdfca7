//! The cells of a table, added to the costs of the own values.

ghost use Rattle.std.specs.Prelude.{◌≡◌, ℕ, ◌<◌, ◌≤◌, ◌+◌, ◌*◌, length, map, min, slice_index};
ghost use Rattle.std.specs.List.{All};
ghost use Rattle.dcop_base.specs.Limits.{amount_limit};
ghost use Rattle.dcop_base.specs.Table.{AreWithin, cell_place, product};
ghost use Rattle.dcop_base.specs.Values.{cell_with, with_own};
ghost use Rattle.adopt_context.specs.Bounds.{cap};
ghost use Rattle.protocol_steps.specs.Values.{valued};
ghost use Rattle.local_costs.specs.Stride.{stride};

use adopt_context::AgentContext;
use dcop_base::{CAP, Table, Val, VarId, place_of, product_of};

/// Adds the cells of a table to the costs of the values of the agent's own variable. Each cost
/// gains the cell at its own value and at the known values of the other variables, which are 0 if
/// not known. A sum above [`CAP`] becomes [`CAP`].
pub fn add_table(costs: &mut [u64], table: &Table, me: VarId, known: &AgentContext)
    requires some { 1 ≤ length costs.old }
    requires costs { All (λ c. c ≤ amount_limit) costs.old }
    requires within { (d : ℕ) → d < length costs.old
        → AreWithin table.now.sizes (map (with_own me d (valued known.now)) table.now.scope) }
    ensures costs { All (λ c. c ≤ amount_limit) costs.new }
    ensures added { (d : ℕ) → d < length costs.old → slice_index costs.new d
        ≡ cap (slice_index costs.old d + cell_with table.now (with_own me d (valued known.now))) }
{
    let scope = table.scope.as_slice();
    let sizes = table.sizes.as_slice();
    let cells = table.cells.as_slice();
    let first = place_at(scope, sizes, me, Val(0), known);
    let stride = stride_of(scope, sizes, me);
    add_cells(costs, cells, first, stride);
}

/// The place of a table's cell at an own value and the known values.
fn place_at(scope: &[VarId], sizes: &[u16], me: VarId, d: Val, known: &AgentContext) -> usize
    requires within { AreWithin sizes.now (map (with_own me d (valued known.now)) scope.now) }
    requires few { product sizes.now ≤ usize.MAX }
    ensures { result ≡ cell_place sizes.now (map (with_own me d (valued known.now)) scope.now) }
{
    place_of(
        scope.len(),
        |k| (sizes[k], value_of(scope[k], me, d, known)),
    )
}

/// The own value for the agent's variable, and the known value for another one; 0 if none is known.
fn value_of(var: VarId, me: VarId, d: Val, known: &AgentContext) -> Val
    ensures { result ≡ with_own me d (valued known.now) var }
{
    if var == me {
        return d;
    }
    match known.get(var) {
        Some(value) => value,
        None => Val(0),
    }
}

/// How far apart the cells of a variable's neighbouring values are: the product of the sizes after
/// the variable, or `usize::MAX` if that is more; 0 if the variable is not in the scope.
#[tactic(auto, using(crate::proofs::PlaceLaws::stride_next))]
fn stride_of(scope: &[VarId], sizes: &[u16], var: VarId) -> usize
    requires { length sizes.now ≡ length scope.now }
    ensures { result ≡ min (stride scope.now sizes.now var) usize.MAX }
{
    for (k, other) in scope.iter().enumerate() {
        if *other == var {
            let (_, behind) = sizes.split_at(k + 1);
            return product_of(behind);
        }
    }
    0
}

/// Adds to each cost its cell: to the first cost the cell at `first`, and to each next cost the
/// cell `stride` places further on. A sum above [`CAP`] becomes [`CAP`].
fn add_cells(costs: &mut [u64], cells: &[u64], first: usize, stride: usize)
    requires costs { All (λ c. c ≤ amount_limit) costs.old }
    requires cells { All (λ c. c ≤ amount_limit) cells.now }
    requires within { (d : ℕ) → d < length costs.old → first + d * stride < length cells.now }
    ensures costs { All (λ c. c ≤ amount_limit) costs.new }
    ensures added { (d : ℕ) → d < length costs.old → slice_index costs.new d
        ≡ cap (slice_index costs.old d + slice_index cells.now (first + d * stride)) }
{
    for (d, cost) in costs.iter_mut().enumerate() {
        *cost = (*cost + cells[first + d * stride]).min(CAP);
    }
}
