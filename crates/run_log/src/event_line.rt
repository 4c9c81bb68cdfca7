//! The lines of events.

ghost use Rattle.std.specs.Prelude.{◌≡◌, true, position};
ghost use Rattle.std.specs.List.{list_all};
ghost use Rattle.std.specs.Str.{bytes_eq};
ghost use Rattle.dcop_base.specs.Limits.{amount_limit};
ghost use Rattle.problem_text.specs.Lines.{words};
ghost use Rattle.problem_text.specs.Name.{is_name};
ghost use Rattle.run_log.specs.EventLine as lines;
ghost use Rattle.run_log.specs.LogReading.{Reads, IsEventOf};

use crate::log::LogEvent;
use dcop_base::{CAP, number_of_word};
use problem_text::{LineEnd, Names, ReportKind, is_word, next_word, variable_of_word};
use protocol_steps::{Take, TakeList};
use std::alloc::Global;

/// The event that a line `event AGENT STAMP`, followed by pairs `SENDER COUNT`, gives.
///
/// # Errors
///
/// [`ReportKind::BadLine`] if the line does not have that form. Otherwise the first fault among its
/// words: [`ReportKind::UnknownName`] for a name that is not among `names`, and
/// [`ReportKind::BadNumber`] for a word that is not a number, a stamp above [`CAP`] or a count
/// above [`u32::MAX`].
pub fn event_of_line(
    alloc: Global,
    names: &Names,
    text: &[u8],
) -> Result<LogEvent, LineEnd<ReportKind>>
    requires named { list_all is_name names.now ≡ true }
    ensures { Reads result (lines.event_line names.now (words text.now)) }
{
    match event_words_of(text) {
        Some(line) => event_with(alloc, names, &line),
        None => Err(LineEnd::Fault(ReportKind::BadLine)),
    }
}

/// The words of a line `event AGENT STAMP`, followed by pairs.
#[derive(Clone, Copy, Debug)]
pub struct EventWords<'a> {
    pub agent: &'a [u8],
    pub stamp: &'a [u8],
    pub pairs: &'a [u8],
}

/// The words of a line; `None` exactly when the line does not have the form.
fn event_words_of(text: &[u8]) -> Option<EventWords<'_>>
    ensures { IsEventOf (words text.now) result }
{
    let (first, rest) = next_word(text)?;
    let (agent, rest) = next_word(rest)?;
    let (stamp, pairs) = next_word(rest)?;
    if !is_word(first, b"event") || !are_pairs(pairs) {
        return None;
    }
    Some(EventWords {
        agent,
        stamp,
        pairs,
    })
}

/// Whether the words of a text are pairs.
fn are_pairs(text: &[u8]) -> bool
    ensures { result ≡ lines.are_pairs (words text.now) }
{
    let mut rest = text;
    while let Some((_, behind)) = next_word(rest) {
        let Some((_, after)) = next_word(behind) else {
            return false;
        };
        rest = after;
    }
    true
}

/// The event that the words of a line give.
fn event_with(
    alloc: Global,
    names: &Names,
    line: &EventWords<'_>,
) -> Result<LogEvent, LineEnd<ReportKind>>
    requires named { list_all is_name names.now ≡ true }
    ensures { Reads result (lines.event_parts names.now line.now.agent.now line.now.stamp.now (words line.now.pairs.now)) }
{
    let Some(agent) = variable_of_word(names, line.agent) else {
        return Err(LineEnd::Fault(ReportKind::UnknownName));
    };
    let Some(stamp) = number_within(CAP, line.stamp) else {
        return Err(LineEnd::Fault(ReportKind::BadNumber));
    };
    let takes = takes_of(alloc, names, line.pairs)?;
    Ok(LogEvent {
        agent,
        stamp,
        takes,
    })
}

/// The takes that pairs of words give.
fn takes_of(alloc: Global, names: &Names, text: &[u8]) -> Result<TakeList, LineEnd<ReportKind>>
    requires named { list_all is_name names.now ≡ true }
    ensures { Reads result (lines.takes_told names.now (words text.now)) }
{
    let mut takes = Vec::new(alloc);
    let mut rest = text;
    while let Some((sender, behind)) = next_word(rest) {
        let Some((count, after)) = next_word(behind) else {
            return Err(LineEnd::Fault(ReportKind::BadLine));
        };
        takes.push(take_of(names, sender, count)?)?;
        rest = after;
    }
    Ok(TakeList::from_vec(takes))
}

/// The take that a sender's name and a count give.
fn take_of(names: &Names, sender: &[u8], count: &[u8]) -> Result<Take, LineEnd<ReportKind>>
    requires named { list_all is_name names.now ≡ true }
    ensures { Reads result (lines.take_told (position (bytes_eq sender.now) names.now) (lines.number_within lines.take_limit count.now)) }
{
    let Some(from) = variable_of_word(names, sender) else {
        return Err(LineEnd::Fault(ReportKind::UnknownName));
    };
    match number_within(u64::from(u32::MAX), count) {
        Some(count) => Ok(Take {
            from,
            count: count as u32,
        }),
        None => Err(LineEnd::Fault(ReportKind::BadNumber)),
    }
}

/// The number that a word writes; `None` exactly when the word is not a number or is above `most`.
pub fn number_within(most: u64, word: &[u8]) -> Option<u64>
    ensures { result ≡ lines.number_within most word.now }
{
    match number_of_word(word) {
        None => None,
        Some(number) => { if number > most { None } else { Some(number) } }
    }
}
