//! Why a WCSP text is refused, and at which line.

ghost use Rattle.std.specs.Prelude.{◌≡◌, length};
ghost use Rattle.problem_text.specs.declared.line_end.LineEnd.TheVariants as ends;
ghost use Rattle.wcsp_text.specs.Kinds.{number_of_kind, number_of_problem};

use problem_text::LineEnd;
use thiserror::Error;

/// Why a WCSP text is refused.
#[derive(Clone, Copy, Debug, PartialEq, Eq, Error)]
pub enum WcspFault {
    /// The first fault of the text, with its line, which counts from 1.
    #[error("line {line} of the WCSP text")]
    Bad { line: u64, kind: WcspKind },
    /// Memory ran out.
    #[error("out of memory")]
    NoMemory,
}

/// What is wrong with a word of a WCSP text, or with the text. Kind 6 is not used.
#[derive(Clone, Copy, Debug, PartialEq, Eq)]
pub enum WcspKind {
    /// Kind 1: a word that must be a number is not one.
    BadNumber,
    /// Kind 2: the text ends before its last word.
    NoEnd,
    /// Kind 3: a variable is not below the number of variables, or occurs twice in a scope.
    Index,
    /// Kind 4: a tuple's value is not below its variable's size.
    Value,
    /// Kind 5: an arity is above 4.
    Arity,
    /// Kind 7: the sizes and functions do not form a problem. `number` tells what is
    /// wrong with the problem.
    Problem { number: u8 },
    /// Kind 8: a further word is on the line of the last word.
    AfterEnd,
}

impl WcspKind {
    /// The number of the kind.
    pub fn number(self) -> u8
        ensures { result ≡ number_of_kind self }
    {
        match self {
            WcspKind::BadNumber => 1,
            WcspKind::NoEnd => 2,
            WcspKind::Index => 3,
            WcspKind::Value => 4,
            WcspKind::Arity => 5,
            WcspKind::Problem { .. } => 7,
            WcspKind::AfterEnd => 8,
        }
    }

    /// If the kind is 7 (the sizes and functions form no problem), the number of what is wrong with
    /// the problem; otherwise 0.
    pub fn problem(self) -> u8
        ensures { result ≡ number_of_problem self }
    {
        match self {
            WcspKind::Problem { number } => number,
            _ => 0,
        }
    }
}

/// A fault, and how many bytes of the text follow its word.
#[derive(Clone, Copy, Debug, PartialEq, Eq)]
pub struct Fault {
    pub after: usize,
    pub kind: WcspKind,
}

/// The result of reading a text in which the word before this rest of it has a fault of this kind.
pub fn fault_before(after: &[u8], kind: WcspKind) -> LineEnd<Fault>
    ensures { result ≡ ends.Fault (record { after = length after.now; kind = kind }) }
{
    LineEnd::Fault(Fault {
        after: after.len(),
        kind,
    })
}
