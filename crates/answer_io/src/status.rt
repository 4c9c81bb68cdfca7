//! Statuses, and the exit codes of programs.

ghost use Rattle.std.specs.Prelude.{◌≡◌};
ghost use Rattle.answer_io.specs.Statuses.{status_of_ending, status_of_verdict, status_of, code_of};

use certificate_text::{Ending, Verdict};
use solve_report::Answer;

/// How a call ended.
#[derive(Clone, Copy, Debug, PartialEq, Eq)]
pub enum Status {
    /// An answer was printed: a solved report or summary, a yes, a tree, a replay, an upgraded
    /// text, or the optima of an edit session.
    Solved,
    /// ADOPT spent its budget. A report or a summary with bounds was printed.
    Spent,
    /// The words are refused.
    BadWords,
    /// The text of the problem, of the report after it, or of the edits after it is refused.
    BadText,
    /// The tables of the agents are too wide.
    TooWide,
    /// The source failed.
    ReadFault,
    /// The sink failed. What is written is a prefix of the answer's text.
    WriteFault,
    /// Memory ran out. Nothing is written.
    NoMemory,
    /// The links between the nodes failed: no wires could be had between them, or a wire failed.
    LinkFault,
    /// What a node received is not what another node sent.
    LinkDiffers,
    /// The report does not hold, its log has an event that cannot happen, or a search found that no
    /// assignment is as good as asked.
    No,
    /// There are more assignments than the method plain tries, or more turns than a cut plays.
    TooMany,
}

impl Status {
    /// The exit code of a program: 0 for solved, and a different one for each other status.
    pub fn code(&self) -> u8
        ensures { result ≡ code_of self.now }
    {
        match self {
            Status::Solved => 0,
            Status::Spent => 1,
            Status::BadWords => 2,
            Status::BadText => 3,
            Status::TooWide => 4,
            Status::ReadFault => 5,
            Status::WriteFault => 6,
            Status::NoMemory => 7,
            Status::LinkFault => 8,
            Status::LinkDiffers => 9,
            Status::No => 10,
            Status::TooMany => 11,
        }
    }

    /// The status of a report.
    fn of_ending(ending: Ending) -> Status
        ensures { result ≡ status_of_ending ending }
    {
        match ending {
            Ending::Solved => Status::Solved,
            Ending::Spent => Status::Spent,
        }
    }

    /// The status of a verdict.
    fn of_verdict(verdict: Verdict) -> Status
        ensures { result ≡ status_of_verdict verdict }
    {
        match verdict {
            Verdict::Yes { .. } => Status::Solved,
            Verdict::No(_) => Status::No,
        }
    }

    /// The status of an answer.
    pub(crate) fn of(answer: &Answer) -> Status
        ensures { result ≡ status_of answer.now }
    {
        match answer {
            Answer::Report { report, .. } => Status::of_ending(report.status),
            Answer::Drill { summary } => Status::of_ending(summary.status),
            Answer::Verdict { verdict, .. } => Status::of_verdict(*verdict),
            Answer::Tree { .. } | Answer::Replay { .. } => Status::Solved,
            Answer::Upgraded { .. } | Answer::UpgradedWcsp { .. } => Status::Solved,
            Answer::Edits { .. } => Status::Solved,
            Answer::Words { .. } => Status::BadWords,
            Answer::ProblemText { .. } | Answer::WcspText { .. } => Status::BadText,
            Answer::ReportText { .. } | Answer::EditText { .. } => Status::BadText,
            Answer::WideAgent { .. } | Answer::WideTotal { .. } => Status::TooWide,
            Answer::Read => Status::ReadFault,
            Answer::Link => Status::LinkFault,
            Answer::LinkDiffers { .. } | Answer::LinkBytes { .. } => Status::LinkDiffers,
            Answer::Many { .. } | Answer::ManyTurns { .. } => Status::TooMany,
        }
    }
}
