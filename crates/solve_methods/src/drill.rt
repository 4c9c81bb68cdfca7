//! The answer of the command `drill`.

ghost use Rattle.std.specs.Prelude.{◌≡◌, ◌<◌, ◌≤◌, ◌^◌};
ghost use Rattle.dcop_base.specs.Faults.{cell_count};
ghost use Rattle.dcop_base.specs.Problem.{IsAssignment};
ghost use Rattle.dcop_base.specs.Limits.{cell_limit};
ghost use Rattle.solve_report.specs.AnswerText.{HasText};
ghost use Rattle.solve_methods.specs.Drill.{drilled, mark_of, summary_of};
ghost use Rattle.solve_methods.specs.Goal.{TellsRight};

use certificate_text::Report;
use dcop_base::{Problem, Table, Val, problem_is_whole};
use problem_text::ProblemFile;
use solve_report::{Answer, Summary};

/// The answer of `drill`, from the answer of `solve` on the file that was made from a seed: the
/// summary of a report, or a refusal unchanged.
pub fn drill_answer(seed: u64, answer: Answer) -> Answer
    requires right { TellsRight answer }
    requires told { HasText answer }
    ensures drilled { result ≡ drilled seed answer }
    ensures right { TellsRight result }
    ensures told { HasText result }
{
    match answer {
        Answer::Report { report, file } => Answer::Drill {
            summary: summary_of(seed, &file, &report),
        },
        refusal => refusal,
    }
}

/// The summary of a report on the file that was made from a seed.
fn summary_of(seed: u64, file: &ProblemFile, report: &Report) -> Summary
    requires { IsAssignment file.now.problem report.now.values }
    ensures { result ≡ summary_of seed file.now report.now }
{
    let problem = &file.problem;
    problem_is_whole(problem);
    Summary {
        status: report.status,
        method: report.method,
        seed,
        vars: problem.sizes.as_slice().len() as u32,
        tables: problem.tables.as_slice().len() as u64,
        cells: count_cells(problem.tables.as_slice()),
        deliveries: report.deliveries,
        cost: report.cost,
        lower: report.lower,
        upper: report.upper,
        mark: mark_of(report.values.as_slice()),
    }
}

/// How many cells these tables have in total.
fn count_cells(tables: &[Table]) -> u64
    requires { cell_count tables.now ≤ cell_limit }
    ensures { result ≡ cell_count tables.now }
{
    tables
        .iter()
        .map(|table| table.cells.as_slice().len() as u64)
        .sum()
}

/// The sum, over all variables i counted from 0, of i + 1 times the value of variable i.
fn mark_of(values: &[Val]) -> u64
    requires { mark_of values.now < 2 ^ 64 }
    ensures { result ≡ mark_of values.now }
{
    let mut mark = 0;
    for (var, value) in values.iter().enumerate() {
        mark += (var as u64 + 1) * u64::from(value.0);
    }
    mark
}
