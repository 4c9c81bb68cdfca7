//! The text of a report, written in one pass.

ghost use Rattle.std.specs.Prelude.{◌≡◌, ℕ, ◌<◌, ◌≤◌, ◌∷◌, [], ◌++◌, length, map, codes, OnOk, IfOk, IfSome};
ghost use Rattle.std.specs.List.{flat_map, All, AllZip};
ghost use Rattle.std.specs.Fmt.{decimal};
ghost use Rattle.std.specs.String.{string_bytes};
ghost use Rattle.problem_text.specs.Canonical.{line, goal_lines};
ghost use Rattle.certificate_text.specs.CertificateText.{parent_word, util_words, table_lines, log_lines, cut_words, turn_words, turn_lines, cut_lines, certificate_lines, evidence_lines};
ghost use Rattle.certificate_text.specs.Named.{HasWord, IsNamedUtil, IsNamedTurn, IsNamedCertificate, CanTell};
ghost use Rattle.run_log.specs.LogText.{IsNamedEvent};
ghost use Rattle.certificate_text.specs.ReportText.{ending_word, method_word, head_lines, bound_lines, value_words, value_lines, report_text};

use crate::certificate::{Certificate, Turn, Util};
use crate::report::{Ending, Method, Report};
use dcop_base::{Bytes, NoMemory, Val, VarId};
use problem_text::{Labels, Names, ProblemFile, write_cells, write_goal, write_scope};
use run_log::{LogEvent, write_events};
use std::alloc::Global;

/// The text of a report on a file. It prints the names of the file.
///
/// Its lines are `status`, `method`, `goal max` if the goal is max, `error`, `deliveries`, `cost`,
/// `lower`, `upper`, a line `value NAME V` for each variable in order, the certificate if there is
/// one, and `end`. V is the value's name if the variable has value names, and the value as a number
/// otherwise. If the report has a certificate and fits the file, `read_report` of `report_reader`
/// reads the text as the same report.
///
/// # Errors
///
/// [`NoMemory`] if memory runs out.
pub fn write_report(alloc: Global, report: &Report, file: &ProblemFile) -> Result<Bytes, NoMemory>
    requires { CanTell report.now file.now }
    ensures { IfOk result (λ bytes. bytes ≡ report_text report.now file.now) }
{
    let mut text = String::new(alloc);
    write_head(&mut text, report)?;
    write_bounds(&mut text, report)?;
    write_values(
        &mut text,
        &file.names,
        file.labels.as_slice(),
        report.values.as_slice(),
    )?;
    write_evidence(&mut text, &file.names, &report.certificate)?;
    text.push_str("end\n")?;
    Ok(Bytes::from_vec(text.into_bytes()))
}

impl Ending {
    /// The word for the ending, `solved` or `spent`.
    pub fn word(self) -> &'static str
        ensures { result.now ≡ ending_word self }
    {
        match self {
            Ending::Solved => "solved",
            Ending::Spent => "spent",
        }
    }
}

impl Method {
    /// The word for the method, `plain`, `dpop`, `adopt` or `cut`.
    pub fn word(self) -> &'static str
        ensures { result.now ≡ method_word self }
    {
        match self {
            Method::Plain => "plain",
            Method::Dpop => "dpop",
            Method::Adopt => "adopt",
            Method::Cut => "cut",
        }
    }
}

fn write_head(text: &mut String, report: &Report) -> Result<(), NoMemory>
    ensures { OnOk result (string_bytes text.new
        ≡ string_bytes text.old ++ flat_map line (head_lines report.now)) }
{
    let status = report.status.word();
    let method = report.method.word();
    write!(text, "status {status}\nmethod {method}\n")?;
    write_goal(text, report.goal)?;
    write_number(text, "error", report.error)?;
    write_number(text, "deliveries", report.deliveries)
}

fn write_bounds(text: &mut String, report: &Report) -> Result<(), NoMemory>
    ensures { OnOk result (string_bytes text.new
        ≡ string_bytes text.old ++ flat_map line (bound_lines report.now)) }
{
    write_number(text, "cost", report.cost)?;
    write_number(text, "lower", report.lower)?;
    write_number(text, "upper", report.upper)
}

/// Writes a line of a word and a number.
///
/// # Errors
///
/// [`NoMemory`] if memory runs out. No clause then says what the text holds.
pub fn write_number(text: &mut String, word: &str, number: u64) -> Result<(), NoMemory>
    ensures { OnOk result (string_bytes text.new
        ≡ string_bytes text.old ++ line (word.now ∷ decimal number ∷ [])) }
{
    Ok(write!(text, "{word} {number}\n")?)
}

/// Writes a line `value NAME V` for each variable in order. V is the value's name if the variable
/// has value names, and the value as a number otherwise.
///
/// # Errors
///
/// [`NoMemory`] if memory runs out. No clause then says what the text holds.
pub fn write_values(
    text: &mut String,
    names: &Names,
    labels: &[Labels],
    values: &[Val],
) -> Result<(), NoMemory>
    requires named { length values.now ≡ length names.now }
    requires worded { AllZip HasWord labels.now values.now }
    ensures { OnOk result (string_bytes text.new
        ≡ string_bytes text.old ++ flat_map line (value_lines names.now labels.now values.now)) }
{
    for place in 0..names.len() {
        let name = names.name(VarId(place as u32));
        write_value(text, name, &labels[place], values[place])?;
    }
    Ok(())
}

fn write_value(text: &mut String, name: &str, labels: &Labels, value: Val) -> Result<(), NoMemory>
    requires { HasWord labels.now value }
    ensures { OnOk result (string_bytes text.new
        ≡ string_bytes text.old ++ line (value_words name.now labels.now value)) }
{
    if labels.len() == 0 {
        let number = value.0;
        Ok(write!(text, "value {name} {number}\n")?)
    } else {
        let label = labels.name(value.0 as usize);
        Ok(write!(text, "value {name} {label}\n")?)
    }
}

fn write_evidence(
    text: &mut String,
    names: &Names,
    certificate: &Option<Certificate>,
) -> Result<(), NoMemory>
    requires { IfSome certificate.now (IsNamedCertificate (length names.now)) }
    ensures { OnOk result (string_bytes text.new
        ≡ string_bytes text.old ++ flat_map line (evidence_lines names.now certificate.now)) }
{
    match certificate {
        None => Ok(()),
        Some(certificate) => write_certificate(text, names, certificate),
    }
}

fn write_certificate(
    text: &mut String,
    names: &Names,
    certificate: &Certificate,
) -> Result<(), NoMemory>
    requires { IsNamedCertificate (length names.now) certificate.now }
    ensures { OnOk result (string_bytes text.new
        ≡ string_bytes text.old ++ flat_map line (certificate_lines names.now certificate.now)) }
{
    match certificate {
        Certificate::Tables(utils) => write_tables(text, names, utils.as_slice()),
        Certificate::Log(log) => write_log(text, names, log.as_slice()),
        Certificate::Cut { cut, turns } => {
            write_cut(text, names, cut.as_slice(), turns.as_slice())
        }
    }
}

fn write_cut(
    text: &mut String,
    names: &Names,
    cut: &[VarId],
    turns: &[Turn],
) -> Result<(), NoMemory>
    requires cut { All (λ v. v < length names.now) cut.now }
    requires turns { All (IsNamedTurn (length names.now)) turns.now }
    ensures { OnOk result (string_bytes text.new
        ≡ string_bytes text.old ++ flat_map line (cut_lines names.now cut.now turns.now)) }
{
    write_cut_names(text, names, cut)?;
    write_turns(text, names, turns)
}

fn write_cut_names(text: &mut String, names: &Names, cut: &[VarId]) -> Result<(), NoMemory>
    requires { All (λ v. v < length names.now) cut.now }
    ensures { OnOk result (string_bytes text.new
        ≡ string_bytes text.old ++ line (cut_words names.now cut.now)) }
{
    text.push_str("certificate cut")?;
    write_scope(text, names, cut)?;
    Ok(text.push_str("\n")?)
}

fn write_turns(text: &mut String, names: &Names, turns: &[Turn]) -> Result<(), NoMemory>
    requires { All (IsNamedTurn (length names.now)) turns.now }
    ensures { OnOk result (string_bytes text.new
        ≡ string_bytes text.old ++ flat_map line (flat_map (turn_lines names.now) turns.now)) }
{
    for turn in turns {
        write_turn_values(text, turn.values.as_slice())?;
        write_utils(text, names, turn.tables.as_slice())?;
    }
    Ok(())
}

fn write_turn_values(text: &mut String, values: &[Val]) -> Result<(), NoMemory>
    ensures { OnOk result (string_bytes text.new
        ≡ string_bytes text.old ++ line (turn_words values.now)) }
{
    text.push_str("turn")?;
    write_numbers(text, values)?;
    Ok(text.push_str("\n")?)
}

/// Adds these values to a text, each as a number after a space.
fn write_numbers(text: &mut String, values: &[Val]) -> Result<(), NoMemory>
    ensures { OnOk result (string_bytes text.new
        ≡ string_bytes text.old ++ flat_map (λ value. 32 ∷ decimal value) values.now) }
{
    for value in values {
        let number = value.0;
        write!(text, " {number}")?;
    }
    Ok(())
}

fn write_tables(text: &mut String, names: &Names, utils: &[Util]) -> Result<(), NoMemory>
    requires { All (IsNamedUtil (length names.now)) utils.now }
    ensures { OnOk result (string_bytes text.new
        ≡ string_bytes text.old ++ flat_map line (table_lines names.now utils.now)) }
{
    text.push_str("certificate tables\n")?;
    write_utils(text, names, utils)
}

fn write_log(text: &mut String, names: &Names, log: &[LogEvent]) -> Result<(), NoMemory>
    requires { All (IsNamedEvent (length names.now)) log.now }
    ensures { OnOk result (string_bytes text.new
        ≡ string_bytes text.old ++ flat_map line (log_lines names.now log.now)) }
{
    text.push_str("certificate log\n")?;
    write_events(text, names, log)
}

fn write_utils(text: &mut String, names: &Names, utils: &[Util]) -> Result<(), NoMemory>
    requires { All (IsNamedUtil (length names.now)) utils.now }
    ensures { OnOk result (string_bytes text.new
        ≡ string_bytes text.old ++ flat_map line (map (util_words names.now) utils.now)) }
{
    for util in utils {
        write_util(text, names, util)?;
    }
    Ok(())
}

fn write_util(text: &mut String, names: &Names, util: &Util) -> Result<(), NoMemory>
    requires { IsNamedUtil (length names.now) util.now }
    ensures { OnOk result (string_bytes text.new
        ≡ string_bytes text.old ++ line (util_words names.now util.now)) }
{
    let name = names.name(util.var);
    let parent = parent_word(names, util.parent);
    write!(text, "util {name} {parent} :")?;
    write_scope(text, names, util.scope.as_slice())?;
    text.push_str(" :")?;
    write_cells(text, util.cells.as_slice())?;
    Ok(text.push_str("\n")?)
}

/// The word for a variable's parent: the parent's name, or `-` if there is none.
pub fn parent_word(names: &Names, parent: Option<VarId>) -> &str
    requires { IfSome parent (λ p. p < length names.now) }
    ensures { result.now ≡ parent_word names.now parent }
{
    match parent {
        None => "-",
        Some(parent) => names.name(parent),
    }
}
