//! Checking the text of a report.

ghost use Rattle.std.specs.Prelude.{◌≡◌, ◌+◌, ◌≤◌, length, IfOk};
ghost use Rattle.dcop_base.specs.Limits.{input_limit};
ghost use Rattle.problem_text.specs.Steps.{declared_by};
ghost use Rattle.report_reader.specs.Again.{HasFit};
ghost use Rattle.minimised_problem.specs.Verdict.{ShowsBest};
ghost use Rattle.certificate_check.specs.Verdicts.{IsVerdict, IsExact};
ghost use Rattle.solve_report.specs.AnswerText.{HasText};
ghost use Rattle.solve_report.specs.Verdict.{IsNamedVerdict};
ghost use Rattle.solve_printed.specs.Checking.{AnswersCheck};

use certificate_check::check;
use certificate_text::{Report, Verdict};
use dcop_base::{NoMemory, problem_is_whole};
use problem_text::{ProblemFile, ReportFault};
use report_reader::read_report;
use solve_report::Answer;
use std::alloc::Global;

/// The answer to the text of a report on a file: the verdict on the report, or the first fault of
/// its text. `before` lines precede the text, and lines count from the beginning of the input. The
/// lines before the text and the bytes of the text are together at most 2^28, the most bytes of an
/// input.
///
/// # Errors
///
/// [`NoMemory`] if memory runs out.
pub fn check_answer(
    alloc: Global,
    file: ProblemFile,
    text: &[u8],
    before: u64,
) -> Result<Answer, NoMemory>
    requires few { before + length text.now ≤ input_limit }
    ensures belongs { IfOk result (AnswersCheck (declared_by file) before text.now) }
    ensures told { IfOk result HasText }
{
    problem_is_whole(&file.problem);
    match read_report(alloc, text, &file) {
        Ok(report) => {
            let verdict = verdict_on(alloc, &file, &report)?;
            Ok(Answer::Verdict {
                verdict,
                names: file.names,
            })
        }
        Err(ReportFault::Bad { line, kind }) => Ok(Answer::ReportText {
            line: before + line,
            kind: kind.number(),
        }),
        Err(ReportFault::NoMemory) => Err(NoMemory),
    }
}

/// The verdict on a report. Each variable in it has a name.
fn verdict_on(alloc: Global, file: &ProblemFile, report: &Report) -> Result<Verdict, NoMemory>
    requires { HasFit file.now report.now }
    ensures verdict { IfOk result (IsVerdict file.now report.now) }
    ensures exact { IfOk result (IsExact file.now report.now) }
    ensures best { IfOk result (ShowsBest file.now) }
    ensures named { IfOk result (IsNamedVerdict (length file.now.names)) }
{
    let _names = &file.names;
    check(alloc, file, report)
}
