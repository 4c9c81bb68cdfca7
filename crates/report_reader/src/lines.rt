//! The lines of a text in their order.

ghost use Rattle.std.specs.Prelude.{◌≡◌};
ghost use Rattle.problem_text.specs.declared.fault.ReportFault.TheVariants.{Bad};
ghost use Rattle.problem_text.specs.declared.fault.ReportKind.TheVariants.{NoEnd};
ghost use Rattle.report_reader.specs.ReportLines.{whole};
ghost use Rattle.report_reader.specs.Steps.{IsNext, IsLine, IsTold};

use problem_text::{LineEnd, ReportFault, ReportKind, line_behind, next_plain_line};
use std::marker::Model;

/// What is left of a text: its lines with words.
#[derive(Debug, Drop)]
pub struct Lines<'a> {
    /// The number of the first line of `rest`.
    number: u64,
    rest: &'a [u8],
    /// The number of the line after the text, at which a missing `end` is reported.
    over: u64,
}

impl<'a> Model for Lines<'a> {
    ghost use Rattle.std.specs.Prelude.{◌<◌, ◌+◌, ◌^◌, length};
    ghost use Rattle.problem_text.specs.PlainLines.{plain_lines};
    ghost use Rattle.report_reader.specs.ReportLines.{Left};

    ghost Value = { Left };

    ghost view = { λ l. record { lines = plain_lines l.number l.rest.now; over = l.over } };

    ghost invariant = { λ l. l.number + length l.rest.now < 2 ^ 64 };
}

/// A line with words.
#[derive(Clone, Copy, Debug)]
pub struct Line<'a> {
    /// Its number, counted from 1.
    pub number: u64,
    /// Its content.
    pub text: &'a [u8],
}

impl<'a> Lines<'a> {
    /// All lines of a text.
    pub fn new(text: &'a [u8]) -> Lines<'a>
        ensures { result ≡ whole text.now }
    {
        Lines {
            number: 1,
            rest: text,
            over: line_behind(text),
        }
    }

    /// The next line; `None` exactly when none is left.
    pub fn next(&mut self) -> Option<Line<'a>>
        ensures { IsNext self.old result self.new }
    {
        let line = next_plain_line(self.rest, self.number)?;
        self.number = line.number + 1;
        self.rest = line.after;
        Some(Line {
            number: line.number,
            text: line.text,
        })
    }

    /// The next line.
    ///
    /// # Errors
    ///
    /// [`ReportKind::NoEnd`] if no line is left.
    pub fn line(&mut self) -> Result<Line<'a>, ReportFault>
        ensures { IsLine self.old result self.new }
    {
        match self.next() {
            Some(line) => Ok(line),
            None => Err(self.no_end()),
        }
    }

    /// The fault that is reported if no line is left.
    pub fn no_end(&self) -> ReportFault
        ensures { result ≡ Bad self.now.over NoEnd }
    {
        ReportFault::Bad {
            line: self.over,
            kind: ReportKind::NoEnd,
        }
    }
}

/// The result of reading the line with this number; a fault gets the number of the line.
pub fn told_by<T: Drop>(line: u64, told: Result<T, LineEnd<ReportKind>>) -> Result<T, ReportFault>
    ensures { IsTold line told result }
{
    match told {
        Ok(told) => Ok(told),
        Err(LineEnd::Fault(kind)) => Err(ReportFault::Bad { line, kind }),
        Err(LineEnd::NoMemory) => Err(ReportFault::NoMemory),
    }
}
