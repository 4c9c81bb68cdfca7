//! Laws of the optimum, which hold of every problem.

ghost use Rattle.std.specs.Prelude.{◌≡◌, ℕ, List};
ghost use Rattle.dcop_optimum.specs.Optimum.{IsOptimum, IsFirstOptimum};

use dcop_base::{Problem, problem_is_whole};

/// Every problem has exactly one optimum.
pub fn one_optimum(problem: &Problem)
    ensures some { (least : ℕ) × IsOptimum problem.now least }
    ensures one { (c d : ℕ) → IsOptimum problem.now c → IsOptimum problem.now d → c ≡ d }
{
    problem_is_whole(problem);
}

/// Every problem has exactly one first optimal assignment.
pub fn one_first_optimum(problem: &Problem)
    ensures some { (values : List ℕ) × IsFirstOptimum problem.now values }
    ensures one { (a b : List ℕ) →
        IsFirstOptimum problem.now a → IsFirstOptimum problem.now b → a ≡ b }
{
    problem_is_whole(problem);
}
