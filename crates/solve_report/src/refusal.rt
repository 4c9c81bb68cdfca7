//! The line of each refusal.

ghost use Rattle.std.specs.Prelude.{◌≡◌, IfOk};
ghost use Rattle.std.specs.String.{string_bytes};
ghost use Rattle.problem_text.specs.Canonical.{line as line_of};
ghost use Rattle.solve_report.specs.Refusal.{words_refusal, problem_refusal, text_refusal, wcsp_refusal, line_refusal, report_refusal, edit_refusal};
ghost use Rattle.solve_report.specs.Refusal.{many_refusal, turns_refusal, wide_refusal, total_refusal, read_refusal};

use dcop_base::{Bytes, MAX_ASSIGNMENTS, MAX_JOINED_CELLS, MAX_SENT_CELLS, MAX_TURNS, NoMemory};
use std::alloc::Global;

/// The kind of a text's fault that is followed by the number of what is wrong with the problem.
const PROBLEM_KIND: u8 = 7;

/// `refused words at A kind K`
pub(crate) fn refuse_words(alloc: Global, at: u64, kind: u8) -> Result<Bytes, NoMemory>
    ensures { IfOk result (λ text. text ≡ line_of (words_refusal at kind)) }
{
    let mut text = String::new(alloc);
    write!(text, "refused words at {at} kind {kind}\n")?;
    Ok(bytes_of(text))
}

/// `refused text line L kind K`, for kind 7 followed by ` problem P`
pub(crate) fn refuse_text(
    alloc: Global,
    line: u64,
    kind: u8,
    problem: u8,
) -> Result<Bytes, NoMemory>
    ensures { IfOk result (λ text. text ≡ line_of (text_refusal line kind problem)) }
{
    refuse_problem(alloc, "text", line, kind, problem)
}

/// `refused wcsp line L kind K`, for kind 7 followed by ` problem P`
pub(crate) fn refuse_wcsp(
    alloc: Global,
    line: u64,
    kind: u8,
    problem: u8,
) -> Result<Bytes, NoMemory>
    ensures { IfOk result (λ text. text ≡ line_of (wcsp_refusal line kind problem)) }
{
    refuse_problem(alloc, "wcsp", line, kind, problem)
}

/// `refused report line L kind K`
pub(crate) fn refuse_report(alloc: Global, line: u64, kind: u8) -> Result<Bytes, NoMemory>
    ensures { IfOk result (λ text. text ≡ line_of (report_refusal line kind)) }
{
    refuse_line(alloc, "report", line, kind)
}

/// `refused edit line L kind K`
pub(crate) fn refuse_edit(alloc: Global, line: u64, kind: u8) -> Result<Bytes, NoMemory>
    ensures { IfOk result (λ text. text ≡ line_of (edit_refusal line kind)) }
{
    refuse_line(alloc, "edit", line, kind)
}

/// `refused WORD line L kind K`, for kind 7 followed by ` problem P`
fn refuse_problem(
    alloc: Global,
    word: &str,
    line: u64,
    kind: u8,
    problem: u8,
) -> Result<Bytes, NoMemory>
    ensures { IfOk result (λ text. text ≡ line_of (problem_refusal word.now line kind problem)) }
{
    let mut text = String::new(alloc);
    if kind == PROBLEM_KIND {
        write!(
            text,
            "refused {word} line {line} kind {kind} problem {problem}\n"
        )?;
        Ok(bytes_of(text))
    } else {
        write!(text, "refused {word} line {line} kind {kind}\n")?;
        Ok(bytes_of(text))
    }
}

/// `refused WORD line L kind K`
fn refuse_line(alloc: Global, word: &str, line: u64, kind: u8) -> Result<Bytes, NoMemory>
    ensures { IfOk result (λ text. text ≡ line_of (line_refusal word.now line kind)) }
{
    let mut text = String::new(alloc);
    write!(text, "refused {word} line {line} kind {kind}\n")?;
    Ok(bytes_of(text))
}

/// `refused many assignments N limit 65536`
pub(crate) fn refuse_many(alloc: Global, assignments: u64) -> Result<Bytes, NoMemory>
    ensures { IfOk result (λ text. text ≡ line_of (many_refusal assignments)) }
{
    let mut text = String::new(alloc);
    write!(
        text,
        "refused many assignments {assignments} limit {MAX_ASSIGNMENTS}\n"
    )?;
    Ok(bytes_of(text))
}

/// `refused many turns N limit 65536`
pub(crate) fn refuse_turns(alloc: Global, turns: u64) -> Result<Bytes, NoMemory>
    ensures { IfOk result (λ text. text ≡ line_of (turns_refusal turns)) }
{
    let mut text = String::new(alloc);
    write!(text, "refused many turns {turns} limit {MAX_TURNS}\n")?;
    Ok(bytes_of(text))
}

/// `refused wide agent NAME cells N limit 1048576`
pub(crate) fn refuse_wide(alloc: Global, name: &str, cells: u64) -> Result<Bytes, NoMemory>
    ensures { IfOk result (λ text. text ≡ line_of (wide_refusal name.now cells)) }
{
    let mut text = String::new(alloc);
    write!(
        text,
        "refused wide agent {name} cells {cells} limit {MAX_JOINED_CELLS}\n"
    )?;
    Ok(bytes_of(text))
}

/// `refused wide total cells N limit 4194304`
pub(crate) fn refuse_total(alloc: Global, cells: u64) -> Result<Bytes, NoMemory>
    ensures { IfOk result (λ text. text ≡ line_of (total_refusal cells)) }
{
    let mut text = String::new(alloc);
    write!(
        text,
        "refused wide total cells {cells} limit {MAX_SENT_CELLS}\n"
    )?;
    Ok(bytes_of(text))
}

/// `refused read`
pub(crate) fn refuse_read(alloc: Global) -> Result<Bytes, NoMemory>
    ensures { IfOk result (λ text. text ≡ line_of read_refusal) }
{
    Ok(bytes_of(String::from_str(alloc, "refused read\n")?))
}

/// The bytes of a text.
pub(crate) fn bytes_of(text: String) -> Bytes
    ensures { result ≡ string_bytes text }
{
    Bytes::from_vec(text.into_bytes())
}
