//! Why an input is not a problem.

ghost use Rattle.std.specs.Prelude.{◌≡◌};
ghost use Rattle.wcsp_text.specs.Kinds.{number_of_kind, number_of_problem};

use problem_text::{TextFault, TextKind};
use solve_report::Answer;
use wcsp_text::{WcspFault, WcspKind};

/// Why an input is not a problem.
#[derive(Clone, Copy, Debug, PartialEq, Eq)]
pub enum InputFault {
    /// The first fault of a problem text, and its line. Lines count from 1.
    Text { line: u64, kind: TextKind },
    /// The first fault of a WCSP text, and its line. Lines count from 1.
    Wcsp { line: u64, kind: WcspKind },
    /// Memory ran out.
    NoMemory,
}

impl From<TextFault> for InputFault {
    ghost use Rattle.std.specs.Prelude.{◌≡◌};
    ghost use Rattle.answer_io.specs.Gives.{fault_of_text};

    ghost from_gives = { λ fault e. e ≡ fault_of_text fault };

    fn from(fault: TextFault) -> Self {
        match fault {
            TextFault::Bad { line, kind } => InputFault::Text { line, kind },
            TextFault::NoMemory => InputFault::NoMemory,
        }
    }
}

impl From<WcspFault> for InputFault {
    ghost use Rattle.std.specs.Prelude.{◌≡◌};
    ghost use Rattle.answer_io.specs.Gives.{fault_of_wcsp};

    ghost from_gives = { λ fault e. e ≡ fault_of_wcsp fault };

    fn from(fault: WcspFault) -> Self {
        match fault {
            WcspFault::Bad { line, kind } => InputFault::Wcsp { line, kind },
            WcspFault::NoMemory => InputFault::NoMemory,
        }
    }
}

/// The answer to a WCSP text that is refused with this line and kind.
pub fn wcsp_answer(line: u64, kind: WcspKind) -> Answer
    ensures { result ≡ Answer.WcspText line (number_of_kind kind) (number_of_problem kind) }
{
    Answer::WcspText {
        line,
        kind: kind.number(),
        problem: kind.problem(),
    }
}
