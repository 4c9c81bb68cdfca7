//! Reading case files.

use crate::case::{Answer, Case, Change, Output, Piece, Program};
use crate::escape::add_escaped;
use anyhow::{Context, Result, bail, ensure};
use std::alloc::Global;
use wire_pump::{Alter, PollFail};

/// What lines of text belong to.
#[derive(Clone, Copy, PartialEq, Eq)]
enum Place {
    Nothing,
    Input,
    Output,
}

/// A case file that is read up to some line.
#[derive(Drop)]
struct Reading {
    alloc: Global,
    case: Case,
    place: Place,
    lengths: Option<(usize, usize)>,
}

/// The case that the text of a file says. Errors name the line.
pub fn read_case(alloc: Global, text: &str) -> Result<Case> {
    let mut reading = Reading {
        alloc,
        case: Case::new(alloc),
        place: Place::Nothing,
        lengths: None,
    };
    for (place, line) in text.lines().enumerate() {
        if let Err(error) = reading.line(line) {
            bail!("line {}: {error}", place.saturating_add(1));
        }
    }
    ensure!(reading.lengths.is_none(), "a prefix has no status");
    ensure!(!reading.case.answers.is_empty(), "there is no status");
    Ok(reading.case)
}

impl Reading {
    /// Takes one more line.
    fn line(&mut self, line: &str) -> Result<()> {
        if line.is_empty() || line.starts_with('#') {
            self.place = Place::Nothing;
            return Ok(());
        }
        if line == "|" {
            return self.text("");
        }
        if let Some(text) = line.strip_prefix("| ") {
            return self.text(text);
        }
        self.place = Place::Nothing;
        match line.split_once(' ') {
            Some((key, value)) => self.key(key, value),
            None => self.key(line, ""),
        }
    }

    /// Takes a line of text for what was opened last.
    fn text(&mut self, written: &str) -> Result<()> {
        match (
            self.place,
            self.case.pieces.last_mut(),
            self.case.answers.last_mut(),
        ) {
            (Place::Input, Some(Piece::Text(bytes, _)), _) => add_line(bytes, written),
            (Place::Output, _, Some(answer)) => match &mut answer.output {
                Output::Any => bail!("text belongs to nothing"),
                Output::Whole(bytes) | Output::Lines(bytes) => add_line(bytes, written),
            },
            _ => bail!("text belongs to nothing"),
        }
    }

    /// Takes a key with its value.
    fn key(&mut self, key: &str, value: &str) -> Result<()> {
        match key {
            "program" => self.case.program = program(value)?,
            "words" => {
                for word in value.split_whitespace() {
                    self.case.words.push(String::from_str(self.alloc, word)?)?;
                }
            }
            "input" => self.input(value)?,
            "ordered" => {
                let name = String::from_str(self.alloc, value)?;
                self.case.pieces.push(Piece::Ordered(name))?;
            }
            "repeat" => self.input_text(number(value)?)?,
            "replace" => {
                let change = Change {
                    from: escaped(self.alloc, value)?,
                    to: Vec::new(self.alloc),
                };
                self.case.changes.push(change)?;
            }
            "by" => match self.case.changes.last_mut() {
                Some(change) => change.to = escaped(self.alloc, value)?,
                None => bail!("nothing is replaced"),
            },
            "failing-reads" => add_numbers(&mut self.case.failing_reads, value)?,
            "failing-writes" => add_numbers(&mut self.case.failing_writes, value)?,
            "failing-dials" => add_numbers(&mut self.case.failing_dials, value)?,
            "failing-poll" => self.case.failing_polls.push(poll_fail(value)?)?,
            "alter" => self.case.alters.push(alter(value)?)?,
            "prefix" => self.lengths = Some(lengths(value)?),
            "status" => self.status(value)?,
            "output" => self.output(Output::Whole(Vec::new(self.alloc)))?,
            "lines" => self.output(Output::Lines(Vec::new(self.alloc)))?,
            _ => bail!("{key} is no key"),
        }
        Ok(())
    }

    /// Takes the names of files, or opens a text if there are none.
    fn input(&mut self, value: &str) -> Result<()> {
        if value.is_empty() {
            return self.input_text(1);
        }
        for name in value.split_whitespace() {
            let name = String::from_str(self.alloc, name)?;
            self.case.pieces.push(Piece::File(name))?;
        }
        Ok(())
    }

    /// Opens a text of the input.
    fn input_text(&mut self, times: u64) -> Result<()> {
        self.case
            .pieces
            .push(Piece::Text(Vec::new(self.alloc), times))?;
        self.place = Place::Input;
        Ok(())
    }

    /// Begins an answer.
    fn status(&mut self, value: &str) -> Result<()> {
        let answer = Answer {
            lengths: self.lengths,
            status: value.parse::<u8>().context("status")?,
            output: Output::Any,
        };
        self.lengths = None;
        self.case.answers.push(answer)?;
        Ok(())
    }

    /// Opens the text of the last answer.
    fn output(&mut self, output: Output) -> Result<()> {
        match self.case.answers.last_mut() {
            Some(answer) => answer.output = output,
            None => bail!("an output comes before its status"),
        }
        self.place = Place::Output;
        Ok(())
    }
}

/// Adds a line of text, with LF unless it ends in a lone `\`.
fn add_line(bytes: &mut Vec<u8>, written: &str) -> Result<()> {
    if !add_escaped(bytes, written)? {
        bytes.push(b'\n')?;
    }
    Ok(())
}

/// The bytes of a text within a line.
fn escaped(alloc: Global, written: &str) -> Result<Vec<u8>> {
    let mut bytes = Vec::new(alloc);
    let goes_on = add_escaped(&mut bytes, written)?;
    ensure!(!goes_on, "an escape is cut off");
    Ok(bytes)
}

/// The program of this name.
fn program(name: &str) -> Result<Program> {
    match name {
        "dcop" => Ok(Program::Dcop),
        "dcop_order" => Ok(Program::DcopOrder),
        "dcop_search" => Ok(Program::DcopSearch),
        "dcop_trace" => Ok(Program::DcopTrace),
        _ => bail!("{name} is no program"),
    }
}

fn number(word: &str) -> Result<u64> {
    Ok(word.parse::<u64>().context("number")?)
}

fn add_numbers(numbers: &mut Vec<u64>, value: &str) -> Result<()> {
    for word in value.split_whitespace() {
        numbers.push(number(word)?)?;
    }
    Ok(())
}

/// The poll that `PAIR first N` or `PAIR second N` names.
fn poll_fail(value: &str) -> Result<PollFail> {
    let Some((pair, end_and_poll)) = value.split_once(' ') else {
        bail!("no end of the pair");
    };
    let Some((end, poll)) = end_and_poll.split_once(' ') else {
        bail!("no poll of the end");
    };
    Ok(PollFail {
        pair: pair.parse::<u32>().context("pair")?,
        first_end: is_first(end)?,
        poll: number(poll)?,
    })
}

/// The byte that `PAIR first PLACE BYTE` or `PAIR second PLACE BYTE` alters, and the end that sends
/// it.
fn alter(value: &str) -> Result<Alter> {
    let Some((from, byte)) = value.rsplit_once(' ') else {
        bail!("no byte");
    };
    let named = poll_fail(from)?;
    Ok(Alter {
        pair: named.pair,
        from_first: named.first_end,
        place: named.poll,
        byte: byte.parse::<u8>().context("byte")?,
    })
}

/// Whether an end is the first of its pair.
fn is_first(end: &str) -> Result<bool> {
    match end {
        "first" => Ok(true),
        "second" => Ok(false),
        _ => bail!("{end} is no end"),
    }
}

/// The first and the last length that `A` or `A to B` says.
fn lengths(value: &str) -> Result<(usize, usize)> {
    let (first, last) = match value.split_once(" to ") {
        Some(ends) => ends,
        None => (value, value),
    };
    let first = first.parse::<usize>().context("first length")?;
    let last = last.parse::<usize>().context("last length")?;
    ensure!(first <= last, "no length is in this range");
    Ok((first, last))
}
