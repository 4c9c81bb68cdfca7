//! The cost of an assignment.

ghost use Rattle.std.specs.Prelude.{◌≡◌, ℕ, ◌≤◌};
ghost use Rattle.dcop_base.specs.Limits.{amount_limit};
ghost use Rattle.dcop_base.specs.Problem.{IsAssignment, cost};

use crate::number::Val;
use crate::problem::Problem;

/// The cost of an assignment: the sum of the cells that it selects, one from each table.
pub fn cost_of(problem: &Problem, values: &[Val]) -> u64
    requires { IsAssignment problem.now values.now }
    ensures cost { result ≡ cost problem.now values.now }
    ensures within { result ≤ amount_limit }
{
    let mut sum: u64 = 0;
    for table in problem.tables.as_slice() {
        sum += table.eval(values);
    }
    sum
}
