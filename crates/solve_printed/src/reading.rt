//! Reading the log of a report.

ghost use Rattle.std.specs.Prelude.{◌≡◌, ◌+◌, ◌≤◌, length, IfOk};
ghost use Rattle.dcop_base.specs.Limits.{input_limit};
ghost use Rattle.problem_text.specs.Kinds.{number_of_report};
ghost use Rattle.problem_text.specs.File.{TextFile};
ghost use Rattle.problem_text.specs.declared.fault.ReportKind.TheVariants.{NoLog};
ghost use Rattle.certificate_text.specs.Fits.{Fits};
ghost use Rattle.report_reader.specs.ReportReading.{report_read};
ghost use Rattle.solve_printed.specs.CertificateLine.{certificate_line};
ghost use Rattle.solve_printed.specs.LogReads.{IsPrintedLog, IsLogRead, IsPlayable};

use crate::certificate_line::certificate_line;
use certificate_text::{Certificate, Report};
use dcop_base::NoMemory;
use problem_text::{ProblemFile, ReportFault, ReportKind};
use report_reader::read_report;
use run_log::Log;
use solve_report::Answer;
use std::alloc::Global;

/// The result of reading the log of a report.
#[derive(Debug, Drop)]
pub enum LogRead {
    /// The log of the report, and the error that was requested of its run.
    Log { error: u64, log: Log },
    /// The answer that refuses the report.
    Refused(Answer),
}

/// Reads the log of a report on a file. `before` lines precede the text of the report.
///
/// A report that has no log is refused with report kind 9 at the first line of its certificate. A
/// text that is not a report is refused with its first fault. Lines count from the beginning of the
/// input. The lines before the text and the bytes of the text are together at most 2^28, the most
/// bytes of an input.
///
/// # Errors
///
/// [`NoMemory`] if memory runs out.
pub fn read_log(
    alloc: Global,
    file: &ProblemFile,
    text: &[u8],
    before: u64,
) -> Result<LogRead, NoMemory>
    requires few { before + length text.now ≤ input_limit }
    ensures read { IfOk result (IsLogRead before text.now (report_read text.now file.now)) }
    ensures playable { IfOk result (IsPlayable (length file.now.problem.sizes)) }
{
    match read_report(alloc, text, file) {
        Ok(report) => Ok(log_of(report, text, before)),
        Err(ReportFault::Bad { line, kind }) => Ok(LogRead::Refused(Answer::ReportText {
            line: before + line,
            kind: kind.number(),
        })),
        Err(ReportFault::NoMemory) => Err(NoMemory),
    }
}

/// The log of a report that was read.
fn log_of(report: Report, text: &[u8], before: u64) -> LogRead
    requires few { before + length text.now ≤ input_limit }
    ensures read { IsPrintedLog before text.now report.error report.certificate result }
    ensures playable { (file : TextFile) → Fits report file →
        IsPlayable (length file.problem.sizes) result }
{
    let Report {
        error,
        certificate,
        ..
    } = report;
    match certificate {
        Some(certificate) => match certificate {
            Certificate::Log(log) => LogRead::Log { error, log },
            Certificate::Tables(_) | Certificate::Cut { .. } => {
                LogRead::Refused(no_log(text, before))
            }
        },
        None => LogRead::Refused(no_log(text, before)),
    }
}

/// The answer to a report that has no log.
fn no_log(text: &[u8], before: u64) -> Answer
    requires few { before + length text.now ≤ input_limit }
    ensures { result ≡ Answer.ReportText (before + certificate_line text.now) (number_of_report NoLog) }
{
    Answer::ReportText {
        line: before + certificate_line(text),
        kind: ReportKind::NoLog.number(),
    }
}
