//! The verdict on a report.

ghost use Rattle.std.specs.Prelude.{◌≡◌};
ghost use Rattle.minimised_problem.specs.Gap.{gap_of};
ghost use Rattle.minimised_problem.specs.Verdict.{verdict_by};

use certificate_text::{Differs, Report, Verdict};
use problem_text::{Goal, ProblemFile};

/// The verdict on a report: no with the first difference, or yes with the cost and the gap if there
/// is no difference.
pub fn verdict_of(file: &ProblemFile, report: &Report, differs: Option<Differs>) -> Verdict
    ensures { result ≡ verdict_by file.now report.now differs }
{
    match differs {
        Some(differs) => Verdict::No(differs),
        None => Verdict::Yes {
            cost: report.cost,
            error: gap_of(file.goal, report),
        },
    }
}

/// The gap of a report: by how much, given its bounds, the best sum may be better than its cost. It
/// is the cost minus the lower bound, or for goal max the upper bound minus the cost.
pub fn gap_of(goal: Goal, report: &Report) -> u64
    ensures { result ≡ gap_of goal report.now }
{
    match goal {
        Goal::Min => report.cost.saturating_sub(report.lower),
        Goal::Max => report.upper.saturating_sub(report.cost),
    }
}
