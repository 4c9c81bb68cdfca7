//! Why a text is refused, and at which line.

ghost use Rattle.std.specs.Prelude.{◌≡◌};
ghost use Rattle.problem_text.specs.Kinds.{number_of_text, number_of_problem, number_of_report};

use dcop_base::NoMemory;
use std::alloc::AllocFailed;
use thiserror::Error;

/// Why a problem text is refused.
#[derive(Clone, Copy, Debug, PartialEq, Eq, Error)]
pub enum TextFault {
    /// The first fault of the text, with its line, which counts from 1.
    #[error("line {line} of the problem text")]
    Bad { line: u64, kind: TextKind },
    /// Memory ran out.
    #[error("out of memory")]
    NoMemory,
}

impl From<NoMemory> for TextFault {
    ghost use Rattle.std.specs.Prelude.{◌≡◌};
    ghost use Rattle.problem_text.specs.declared.fault.TextFault.TheVariants.{NoMemory as no_memory};

    ghost from_gives = { λ _ e. e ≡ no_memory };

    fn from(_refused: NoMemory) -> Self {
        TextFault::NoMemory
    }
}

/// What is wrong with a line of a problem text, or with the text.
#[derive(Clone, Copy, Debug, PartialEq, Eq)]
pub enum TextKind {
    /// Kind 1: the first line with words is neither `dcop 1` nor `dcop 2`.
    BadHeader,
    /// Kind 2: the words do not form a line of the grammar.
    BadWord,
    /// Kind 3: a size or a cell is not a number.
    BadNumber,
    /// Kind 4: a table names a variable that no earlier line declares.
    UnknownName,
    /// Kind 5: an earlier line declares the same name, or a value name occurs twice in a line.
    NameTwice,
    /// Kind 6: the text ends without a line `end`.
    NoEnd,
    /// Kind 7: the sizes and tables do not form a problem. `number` is the number of the problem's
    /// fault.
    Problem { number: u8 },
    /// Kind 8: a line with words follows the line `end`.
    AfterEnd,
    /// Kind 9: the text is too long. The fault's line is 0.
    TooLong,
}

impl TextKind {
    /// The number of the kind, from 1 on.
    pub fn number(self) -> u8
        ensures { result ≡ number_of_text self }
    {
        match self {
            TextKind::BadHeader => 1,
            TextKind::BadWord => 2,
            TextKind::BadNumber => 3,
            TextKind::UnknownName => 4,
            TextKind::NameTwice => 5,
            TextKind::NoEnd => 6,
            TextKind::Problem { .. } => 7,
            TextKind::AfterEnd => 8,
            TextKind::TooLong => 9,
        }
    }

    /// The number of the problem's fault if the kind is 7, and 0 otherwise.
    pub fn problem(self) -> u8
        ensures { result ≡ number_of_problem self }
    {
        match self {
            TextKind::Problem { number } => number,
            _ => 0,
        }
    }
}

/// Why the text of a report is refused.
#[derive(Clone, Copy, Debug, PartialEq, Eq, Error)]
pub enum ReportFault {
    /// The first fault of the text, with its line, which counts from 1.
    #[error("line {line} of the report")]
    Bad { line: u64, kind: ReportKind },
    /// Memory ran out.
    #[error("out of memory")]
    NoMemory,
}

impl From<NoMemory> for ReportFault {
    ghost use Rattle.std.specs.Prelude.{◌≡◌};
    ghost use Rattle.problem_text.specs.declared.fault.ReportFault.TheVariants.{NoMemory as no_memory};

    ghost from_gives = { λ _ e. e ≡ no_memory };

    fn from(_refused: NoMemory) -> Self {
        ReportFault::NoMemory
    }
}

impl<T: Drop> From<AllocFailed<T>> for ReportFault {
    ghost use Rattle.std.specs.Prelude.{◌≡◌};
    ghost use Rattle.problem_text.specs.declared.fault.ReportFault.TheVariants.{NoMemory as no_memory};

    ghost from_gives = { λ _ e. e ≡ no_memory };

    fn from(_refused: AllocFailed<T>) -> Self {
        ReportFault::NoMemory
    }
}

/// What is wrong with a line of a report, or with the report. The number of a kind is its
/// discriminant.
#[derive(Clone, Copy, Debug, PartialEq, Eq)]
pub enum ReportKind {
    /// The line does not have the form that its position requires.
    BadLine = 1,
    /// A word that must be a number is not one, or the number is too large.
    BadNumber = 2,
    /// A name is not in the problem, or is not the one that its position requires.
    UnknownName = 3,
    /// The number of cells in a line differs from the number that its scope requires.
    CellCount = 4,
    /// The report has no certificate.
    NoCertificate = 5,
    /// The text ends without a line `end`.
    NoEnd = 6,
    /// A line with words follows the line `end`.
    AfterEnd = 7,
    /// A value is not below its variable's size.
    BadValue = 8,
    /// The certificate is not a log.
    NoLog = 9,
}

impl ReportKind {
    /// The number of the kind, from 1 on.
    pub fn number(self) -> u8
        ensures { result ≡ number_of_report self }
    {
        self as u8
    }
}
