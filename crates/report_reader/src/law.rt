//! The law that written reports are read again.

ghost use Rattle.certificate_text.specs.ReportText.{report_text};
ghost use Rattle.report_reader.specs.Again.{IsReadBack};

use certificate_text::Report;
use problem_text::ProblemFile;

/// The text of a report that has a certificate and fits the file is read as that report.
///
/// The law is the contract of a call that does nothing; code that needs the law calls it.
pub fn written_reports_are_read(report: &Report, file: &ProblemFile)
    ensures { IsReadBack (report_text report.now file.now) file.now report.now }
{
    let problem = &file.problem;
    let _sizes = problem.sizes.as_slice();
}
