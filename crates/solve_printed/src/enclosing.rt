//! The law about the bounds in the answer of a replay.

ghost use Rattle.solve_printed.specs.Enclosing.{ReplayedBoundsEnclose};

use run_laws::{adopt_bounds_enclose, token_runs};

/// Whatever events of a run are replayed, the reported bounds of an agent enclose the cost of its
/// subtree: if the proper ancestors of its variable have the values that the agent knows, the least
/// cost of the subtree is at least the lower bound, and at most the upper bound, if there is one.
/// Costs are those of the problem solved.
pub fn replayed_bounds_enclose()
    ensures { ReplayedBoundsEnclose }
{
    token_runs();
    adopt_bounds_enclose();
}
