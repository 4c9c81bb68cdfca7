//! The reader of reports: their lines in order, up to the first fault.

ghost use Rattle.std.specs.Prelude.{◌≡◌, ◌<◌, ◌≤◌, ℕ, List, [], Ok, length, slice_index, IfOk, IfErr};
ghost use Rattle.std.specs.List.{All, AllZip, slice_index_or};
ghost use Rattle.dcop_base.specs.Limits.{size_limit, variable_limit};
ghost use Rattle.problem_text.specs.Lines.{words};
ghost use Rattle.problem_text.specs.File.{AreLabels};
ghost use Rattle.run_log.specs.EventLine.{event_line};
ghost use Rattle.run_log.specs.LogReading.{Reads};
ghost use Rattle.report_reader.specs.ValueLine.{value_line};
ghost use Rattle.report_reader.specs.UtilLine.{util_line};
ghost use Rattle.report_reader.specs.CertificateLine.{certificate_line};
ghost use Rattle.report_reader.specs.ReportLines.{one_line, told_at};
ghost use Rattle.report_reader.specs.TurnReading.{cut_read};
ghost use Rattle.report_reader.specs.ReportReading as reading;
ghost use Rattle.report_reader.specs.Steps.{IsRead, IsFault};
ghost use Rattle.report_reader.specs.Again.{ReadsReport, HasFit, TellsFitting};

use crate::certificate_line::{Form, form_of};
use crate::head::{Bounds, Head, read_bounds, read_head};
use crate::head_line::is_only;
use crate::lines::{Lines, told_by};
use crate::turns::{cut_sizes_of, read_turns};
use crate::util_line::{lacks_util, util_of};
use crate::value_line::value_of;
use certificate_text::{Certificate, CutList, Method, Report, Util, UtilList};
use dcop_base::{MAX_SIZE, MAX_VARIABLES, Val, ValList, VarId};
use problem_text::{Labels, LineEnd, Names, ProblemFile, ReportFault, ReportKind};
use run_log::{Log, LogEvent, event_of_line};
use std::alloc::Global;

/// Reads the text of a report on a file. The result has a certificate and fits the file.
///
/// # Errors
///
/// [`ReportFault::Bad`] with the line and the kind of the first fault, which is of any kind but 9;
/// lines count from 1 at the first byte. [`ReportFault::NoMemory`] if memory runs out.
pub fn read_report(alloc: Global, bytes: &[u8], file: &ProblemFile) -> Result<Report, ReportFault>
    ensures reads { ReadsReport bytes.now file.now result }
    ensures fits { IfOk result (HasFit file.now) }
{
    tells_fitting(bytes, file);
    read_lines(alloc, bytes, file)
}

/// A law: if a text is read as a report, that report has a certificate and fits the file.
fn tells_fitting(bytes: &[u8], file: &ProblemFile)
    ensures { TellsFitting bytes.now file.now }
{
    let _goal = file.goal;
}

/// Reads the lines of a report.
fn read_lines(alloc: Global, bytes: &[u8], file: &ProblemFile) -> Result<Report, ReportFault>
    ensures { ReadsReport bytes.now file.now result }
{
    let mut lines = Lines::new(bytes);
    let head = read_head(&mut lines, file.goal)?;
    let bounds = read_bounds(&mut lines)?;
    let values = read_values(alloc, &mut lines, file)?;
    let certificate = read_certificate(alloc, &mut lines, file, head.method)?;
    whole(report_of(head, bounds, values, certificate), &mut lines)
}

/// The report with these parts.
fn report_of(head: Head, bounds: Bounds, values: ValList, certificate: Certificate) -> Report
    ensures { result ≡ reading.report_of head bounds values certificate }
{
    Report {
        status: head.status,
        method: head.method,
        goal: head.goal,
        error: head.error,
        deliveries: head.deliveries,
        cost: bounds.cost,
        lower: bounds.lower,
        upper: bounds.upper,
        values,
        certificate: Some(certificate),
    }
}

/// The report, if no line is left after it.
fn whole(report: Report, lines: &mut Lines<'_>) -> Result<Report, ReportFault>
    ensures ok { IfOk result (λ r. reading.nothing_behind report lines.old.lines ≡ Ok r) }
    ensures err { IfErr result (IsFault (reading.nothing_behind report lines.old.lines)) }
{
    match lines.next() {
        None => Ok(report),
        Some(line) => Err(ReportFault::Bad {
            line: line.number,
            kind: ReportKind::AfterEnd,
        }),
    }
}

/// Reads the values, one for each variable.
fn read_values(
    alloc: Global,
    lines: &mut Lines<'_>,
    file: &ProblemFile,
) -> Result<ValList, ReportFault>
    ensures { IsRead (reading.values_read file.now.names file.now.labels file.now.problem.sizes lines.old) result lines.new }
{
    let mut values = Vec::new(alloc);
    for place in 0..file.names.len() {
        let value = read_value(lines, file, place)?;
        values.push(value)?;
    }
    Ok(ValList::from_vec(values))
}

/// Reads the value of the variable at this position.
fn read_value(lines: &mut Lines<'_>, file: &ProblemFile, place: usize) -> Result<Val, ReportFault>
    requires { place < length file.now.names }
    ensures { IsRead (one_line (value_line (slice_index_or file.now.names place [])
        (slice_index_or file.now.labels place []) (slice_index file.now.problem.sizes place)) lines.old)
        result lines.new }
{
    let line = lines.line()?;
    told_by(line.number, value_at(file, place, line.text))
}

/// The value that a line gives the variable at this position.
fn value_at(file: &ProblemFile, place: usize, text: &[u8]) -> Result<Val, LineEnd<ReportKind>>
    requires { place < length file.now.names }
    ensures { Reads result (value_line (slice_index_or file.now.names place [])
        (slice_index_or file.now.labels place []) (slice_index file.now.problem.sizes place) (words text.now)) }
{
    let problem = &file.problem;
    value_among(
        &file.names,
        file.labels.as_slice(),
        problem.sizes.as_slice(),
        place,
        text,
    )
}

/// The value that a line gives the variable at this position, found by names, value names and
/// sizes.
fn value_among(
    names: &Names,
    labels: &[Labels],
    sizes: &[u16],
    place: usize,
    text: &[u8],
) -> Result<Val, LineEnd<ReportKind>>
    requires within { place < length names.now }
    requires many { length names.now ≡ length sizes.now }
    requires few { length sizes.now ≤ variable_limit }
    requires labelled { AllZip AreLabels sizes.now labels.now }
    requires small { All (λ size. size ≤ size_limit) sizes.now }
    ensures { Reads result (value_line (slice_index_or names.now place [])
        (slice_index_or labels.now place []) (slice_index sizes.now place) (words text.now)) }
{
    let name = names.name(VarId(place as u32));
    value_of(text, name, &labels[place], sizes[place])
}

/// Reads a certificate that fits the method, up to the line `end`.
fn read_certificate(
    alloc: Global,
    lines: &mut Lines<'_>,
    file: &ProblemFile,
    method: Method,
) -> Result<Certificate, ReportFault>
    ensures { IsRead (reading.certificate_read file.now method lines.old) result lines.new }
{
    let _goal = file.goal;
    let form = read_form(alloc, lines, file, method)?;
    match form {
        Form::Tables => Ok(Certificate::Tables(read_tables(alloc, lines, file)?)),
        Form::Log => Ok(Certificate::Log(read_events(alloc, lines, file)?)),
        Form::Cut(cut) => {
            let turns = read_cut(alloc, lines, file, cut.as_slice())?;
            Ok(Certificate::Cut { cut, turns })
        }
    }
}

/// Reads the turns of a cut of these variables, and the line `end`.
fn read_cut(
    alloc: Global,
    lines: &mut Lines<'_>,
    file: &ProblemFile,
    cut: &[VarId],
) -> Result<CutList, ReportFault>
    requires { All (λ v. v < length file.now.problem.sizes) cut.now }
    ensures { IsRead (cut_read file.now cut.now lines.old) result lines.new }
{
    let problem = &file.problem;
    let sizes = cut_sizes_of(alloc, problem.sizes.as_slice(), cut)?;
    read_turns(alloc, lines, &file.names, &sizes)
}

/// Reads the first line of a certificate.
fn read_form(
    alloc: Global,
    lines: &mut Lines<'_>,
    file: &ProblemFile,
    method: Method,
) -> Result<Form, ReportFault>
    ensures { IsRead (one_line (certificate_line file.now.names method) lines.old) result lines.new }
{
    let line = lines.line()?;
    told_by(line.number, form_of(alloc, &file.names, line.text, method))
}

/// Reads the tables, one for each variable, and the line `end`.
fn read_tables(
    alloc: Global,
    lines: &mut Lines<'_>,
    file: &ProblemFile,
) -> Result<UtilList, ReportFault>
    ensures { IsRead (reading.tables_read file.now.names file.now.problem.sizes lines.old.over [] lines.old.lines)
        result lines.new }
{
    let mut utils = Vec::new(alloc);
    while let Some(line) = lines.next() {
        if is_only(line.text, b"end") {
            return told_by(line.number, ended(utils, file.names.len()));
        }
        let util = told_by(
            line.number,
            util_at(alloc, file, utils.as_slice(), line.text),
        )?;
        utils.push(util)?;
    }
    Err(lines.no_end())
}

/// Reads the events of a log, and the line `end`.
fn read_events(alloc: Global, lines: &mut Lines<'_>, file: &ProblemFile) -> Result<Log, ReportFault>
    ensures { IsRead (reading.events_read file.now.names lines.old.over [] lines.old.lines) result lines.new }
{
    let mut events = Vec::new(alloc);
    while let Some(line) = lines.next() {
        if is_only(line.text, b"end") {
            return Ok(Log::from_vec(events));
        }
        let event = told_by(line.number, event_at(alloc, file, line.text))?;
        events.push(event)?;
    }
    Err(lines.no_end())
}

/// The event that a line gives.
fn event_at(alloc: Global, file: &ProblemFile, text: &[u8]) -> Result<LogEvent, LineEnd<ReportKind>>
    ensures { Reads result (event_line file.now.names (words text.now)) }
{
    event_of_line(alloc, &file.names, text)
}

/// The tables before the line `end`, if there are `count` variables.
fn ended(utils: Vec<Util>, count: usize) -> Result<UtilList, LineEnd<ReportKind>>
    requires { count ≤ variable_limit }
    ensures { (names : List (List ℕ)) → length names ≡ count → Reads result (reading.ended names utils.items) }
{
    if lacks_util(utils.as_slice(), count) {
        return Err(LineEnd::Fault(ReportKind::BadLine));
    }
    Ok(UtilList::from_vec(utils))
}

/// The table that a line declares, if these are the tables of the lines before it.
fn util_at(
    alloc: Global,
    file: &ProblemFile,
    utils: &[Util],
    text: &[u8],
) -> Result<Util, LineEnd<ReportKind>>
    ensures { Reads result (util_line file.now.names file.now.problem.sizes utils.now (words text.now)) }
{
    let problem = &file.problem;
    util_of(alloc, &file.names, problem.sizes.as_slice(), utils, text)
}
