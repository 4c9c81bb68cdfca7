//! The lines before the values.

ghost use Rattle.std.specs.Prelude.{◌≡◌, MatchOption, None, Some};
ghost use Rattle.problem_text.specs.Lines.{words};
ghost use Rattle.dcop_base.specs.Limits.{amount_limit};
ghost use Rattle.run_log.specs.EventLine.{number_within};
ghost use Rattle.run_log.specs.LogReading.{Reads};
ghost use Rattle.report_reader.specs.Told.{word_behind, is_alone, begins_with};
ghost use Rattle.report_reader.specs.HeadLines.{status_line, method_line, max_line, number_line};

use certificate_text::{Ending, Method};
use dcop_base::CAP;
use problem_text::{Goal, LineEnd, ReportKind, is_word, next_word};
use run_log::number_within;

/// The word after `key` in a line of these two words; `None` exactly when the line does not have
/// that form.
fn word_of<'a>(text: &'a [u8], key: &[u8]) -> Option<&'a [u8]>
    ensures { MatchOption result (word_behind key.now (words text.now) ≡ None)
        (λ word. word_behind key.now (words text.now) ≡ Some word.now) }
{
    let (first, rest) = next_word(text)?;
    let (word, rest) = next_word(rest)?;
    if next_word(rest).is_some() || !is_word(first, key) {
        return None;
    }
    Some(word)
}

/// Whether a line consists of this word alone.
pub fn is_only(text: &[u8], key: &[u8]) -> bool
    ensures { result ≡ is_alone key.now (words text.now) }
{
    match next_word(text) {
        None => false,
        Some((word, rest)) => next_word(rest).is_none() && is_word(word, key),
    }
}

/// Whether the words of a line begin with this one.
pub fn begins_with(text: &[u8], key: &[u8]) -> bool
    ensures { result ≡ begins_with key.now (words text.now) }
{
    match next_word(text) {
        None => false,
        Some((word, _)) => is_word(word, key),
    }
}

/// The number that a word writes; `None` exactly when the word is not a number or is above [`CAP`].
pub fn amount_of(word: &[u8]) -> Option<u64>
    ensures { result ≡ number_within amount_limit word.now }
{
    number_within(CAP, word)
}

/// The ending that a line `status` gives.
pub fn status_of(text: &[u8]) -> Result<Ending, LineEnd<ReportKind>>
    ensures { Reads result (status_line (words text.now)) }
{
    let Some(word) = word_of(text, b"status") else {
        return Err(LineEnd::Fault(ReportKind::BadLine));
    };
    if is_word(word, b"solved") {
        return Ok(Ending::Solved);
    }
    if is_word(word, b"spent") {
        return Ok(Ending::Spent);
    }
    Err(LineEnd::Fault(ReportKind::BadLine))
}

/// The method that a line `method` gives.
pub fn method_of(text: &[u8]) -> Result<Method, LineEnd<ReportKind>>
    ensures { Reads result (method_line (words text.now)) }
{
    let Some(word) = word_of(text, b"method") else {
        return Err(LineEnd::Fault(ReportKind::BadLine));
    };
    if is_word(word, b"plain") {
        return Ok(Method::Plain);
    }
    if is_word(word, b"dpop") {
        return Ok(Method::Dpop);
    }
    if is_word(word, b"adopt") {
        return Ok(Method::Adopt);
    }
    if is_word(word, b"cut") {
        return Ok(Method::Cut);
    }
    Err(LineEnd::Fault(ReportKind::BadLine))
}

/// The goal that a line `goal max` gives.
pub fn max_of(text: &[u8]) -> Result<Goal, LineEnd<ReportKind>>
    ensures { Reads result (max_line (words text.now)) }
{
    let Some(word) = word_of(text, b"goal") else {
        return Err(LineEnd::Fault(ReportKind::BadLine));
    };
    if is_word(word, b"max") {
        return Ok(Goal::Max);
    }
    Err(LineEnd::Fault(ReportKind::BadLine))
}

/// The number that a line of `key` and a number gives.
pub fn number_of(text: &[u8], key: &[u8]) -> Result<u64, LineEnd<ReportKind>>
    ensures { Reads result (number_line key.now (words text.now)) }
{
    let Some(word) = word_of(text, key) else {
        return Err(LineEnd::Fault(ReportKind::BadLine));
    };
    match amount_of(word) {
        Some(number) => Ok(number),
        None => Err(LineEnd::Fault(ReportKind::BadNumber)),
    }
}
