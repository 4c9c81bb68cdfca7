//! The answer of the method cut.

ghost use Rattle.std.specs.Prelude.{◌≤◌, IfOk};
ghost use Rattle.dcop_base.specs.Limits.{joined_limit, size_limit};
ghost use Rattle.problem_text.specs.Steps.{declared_by};
ghost use Rattle.solve_cut.specs.Cut.{AnswersCut};
ghost use Rattle.solve_methods.specs.Goal.{TellsRight};
ghost use Rattle.solve_report.specs.AnswerText.{HasText};

use dcop_base::NoMemory;
use dcop_edge::Gate;
use problem_text::ProblemFile;
use solve_agents::{Crew, tree_for};
use solve_cut::cut_answer;
use solve_report::Answer;
use std::alloc::Global;
use std::thread::Threads;

/// The answer of the method cut on a file.
///
/// The agents find the tree of the problem solved. Then the agents of each turn solve a slice, in
/// which no joined table has more than `limit` cells. If it is to be certified, the report has the
/// tables of all turns as its certificate.
pub(crate) fn by_cut<R: Threads + Sync, G: Gate>(
    crew: &Crew<R, G>,
    alloc: Global,
    file: ProblemFile,
    limit: u64,
    certified: bool,
) -> Result<Answer, NoMemory>
    requires least { size_limit ≤ limit }
    requires most { limit ≤ joined_limit }
    ensures belongs { IfOk result (AnswersCut (declared_by file) limit certified) }
    ensures right { IfOk result TellsRight }
    ensures told { IfOk result HasText }
{
    let tree = tree_for(crew, alloc, &file)?;
    cut_answer(
        crew.rt,
        alloc,
        file,
        tree,
        limit,
        crew.workers,
        certified,
        crew.gate,
    )
}
