//! Statuses of the server, and the exit codes of its program.

ghost use Rattle.std.specs.Prelude.{◌≡◌};
ghost use Rattle.serve_top.specs.Serving.{status_of, code_of};

use crate::answer::ServeAnswer;

/// How a call of the server ended.
#[derive(Clone, Copy, Debug, PartialEq, Eq)]
pub enum ServeStatus {
    /// All sessions have ended. A summary was printed.
    Solved,
    /// The words are refused.
    BadWords,
    /// The sink failed. What is written is a prefix of the answer's text.
    WriteFault,
    /// Memory ran out. Nothing is written.
    NoMemory,
    /// The listener failed.
    LinkFault,
}

impl ServeStatus {
    /// The exit code of the program: 0 for solved, and a different one for each other status.
    pub fn code(&self) -> u8
        ensures { result ≡ code_of self.now }
    {
        match self {
            ServeStatus::Solved => 0,
            ServeStatus::BadWords => 2,
            ServeStatus::WriteFault => 6,
            ServeStatus::NoMemory => 7,
            ServeStatus::LinkFault => 8,
        }
    }

    /// The status of an answer.
    pub(crate) fn of(answer: &ServeAnswer) -> ServeStatus
        ensures { result ≡ status_of answer.now }
    {
        match answer {
            ServeAnswer::Words { .. } => ServeStatus::BadWords,
            ServeAnswer::Link => ServeStatus::LinkFault,
            ServeAnswer::Summary { .. } => ServeStatus::Solved,
        }
    }
}
