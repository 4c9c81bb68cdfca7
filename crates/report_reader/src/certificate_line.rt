//! The first line of a certificate.

ghost use Rattle.std.specs.Prelude.{◌≡◌, true};
ghost use Rattle.std.specs.List.{list_all};
ghost use Rattle.problem_text.specs.Lines.{words};
ghost use Rattle.problem_text.specs.Name.{is_name};
ghost use Rattle.run_log.specs.LogReading.{Reads};
ghost use Rattle.report_reader.specs.CertificateLine as lines;

use crate::cut_line::cut_of;
use crate::head_line::is_only;
use certificate_text::Method;
use dcop_base::VarList;
use problem_text::{LineEnd, Names, ReportKind, is_word, next_word};
use std::alloc::Global;

/// What the further lines of a certificate give.
#[derive(Debug, Drop)]
pub enum Form {
    /// UTIL tables.
    Tables,
    /// Events.
    Log,
    /// The turns of a cut of these variables.
    Cut(VarList),
}

/// The form of the certificate whose first line this is, in a report with this method.
pub fn form_of(
    alloc: Global,
    names: &Names,
    text: &[u8],
    method: Method,
) -> Result<Form, LineEnd<ReportKind>>
    requires { list_all is_name names.now ≡ true }
    ensures { Reads result (lines.certificate_line names.now method (words text.now)) }
{
    let Some((first, further)) = next_word(text) else {
        return Err(LineEnd::Fault(ReportKind::BadLine));
    };
    if is_only(text, b"end") {
        return Err(LineEnd::Fault(ReportKind::NoCertificate));
    }
    if !is_word(first, b"certificate") {
        return Err(LineEnd::Fault(ReportKind::BadLine));
    }
    fitting(alloc, names, further, method)
}

/// The form that fits the method, given the words after `certificate`.
fn fitting(
    alloc: Global,
    names: &Names,
    text: &[u8],
    method: Method,
) -> Result<Form, LineEnd<ReportKind>>
    requires { list_all is_name names.now ≡ true }
    ensures { Reads result (lines.form_told names.now method (words text.now)) }
{
    match method {
        Method::Plain => Err(LineEnd::Fault(ReportKind::BadLine)),
        Method::Dpop => {
            if is_only(text, b"tables") {
                return Ok(Form::Tables);
            }
            Err(LineEnd::Fault(ReportKind::BadLine))
        }
        Method::Adopt => {
            if is_only(text, b"log") {
                return Ok(Form::Log);
            }
            Err(LineEnd::Fault(ReportKind::BadLine))
        }
        Method::Cut => cut_form(alloc, names, text),
    }
}

/// The form of a cut, given the word `cut` and the names of its variables.
fn cut_form(alloc: Global, names: &Names, text: &[u8]) -> Result<Form, LineEnd<ReportKind>>
    requires { list_all is_name names.now ≡ true }
    ensures { Reads result (lines.cut_form names.now (words text.now)) }
{
    let Some((word, further)) = next_word(text) else {
        return Err(LineEnd::Fault(ReportKind::BadLine));
    };
    if !is_word(word, b"cut") {
        return Err(LineEnd::Fault(ReportKind::BadLine));
    }
    Ok(Form::Cut(cut_of(alloc, names, further)?))
}
