//! Answers, and the text of each.

ghost use Rattle.std.specs.Prelude.{◌≡◌, IfOk};
ghost use Rattle.solve_report.specs.AnswerText.{HasText, answer_text};
ghost use Rattle.solve_report.specs.Refuses.{IsRefusal, IsLinkRefusal};

use crate::edits::write_edits;
use crate::links::{refuse_bytes, refuse_differs, refuse_link};
use crate::refusal::{
    refuse_edit, refuse_many, refuse_read, refuse_report, refuse_text, refuse_total, refuse_turns,
    refuse_wcsp, refuse_wide, refuse_words,
};
use crate::replay::{AgentRowList, write_replay};
use crate::summary::{Summary, write_summary};
use crate::tree::{NodeRowList, write_tree};
use crate::upgrade::write_barred;
use crate::verdict::write_verdict;
use certificate_text::{Report, Verdict, write_report};
use dcop_base::{Bytes, NoMemory, VarId};
use problem_text::{EditedList, Names, ProblemFile, write_problem};
use std::alloc::Global;

/// The answer of a command.
#[derive(Debug, Drop)]
pub enum Answer {
    /// A report on a file.
    Report {
        report: Report,
        file: ProblemFile,
    },
    /// A tree: the messages that were delivered to find it, its nodes in the order of their lines,
    /// and the names of its variables.
    Tree {
        deliveries: u64,
        nodes: NodeRowList,
        names: Names,
    },
    /// The result of checking a report, and the names of the problem's variables. An unlawful
    /// replay has this answer too.
    Verdict {
        verdict: Verdict,
        names: Names,
    },
    /// How many events were replayed, the state of each agent after them, in the order of the
    /// variables, and the names of the variables.
    Replay {
        events: u64,
        agents: AgentRowList,
        names: Names,
    },
    /// The result of solving a problem that was made from a seed.
    Drill {
        summary: Summary,
    },
    /// A file, written as its canonical text; `upgrade` gives it version 2.
    Upgraded {
        file: ProblemFile,
    },
    /// The file that a WCSP text gives, written as a line with its bar and its canonical text. A
    /// cost of the file below the bar is the WCSP value; any other cost means the top of the WCSP
    /// text.
    UpgradedWcsp {
        bar: u64,
        file: ProblemFile,
    },
    /// The optima of an edit session, in order, and the file that was edited.
    Edits {
        answers: EditedList,
        file: ProblemFile,
    },
    /// The words are refused for a fault of this kind at this word. Words count from 1.
    Words {
        at: u64,
        kind: u8,
    },
    /// The problem text is refused for a fault of this kind at this line. Lines count from 1.
    /// `problem` is, if the kind is 7, the number of what is wrong with the problem; otherwise 0.
    ProblemText {
        line: u64,
        kind: u8,
        problem: u8,
    },
    /// The WCSP text is refused for a fault of this kind at this line. Lines count from 1.
    /// `problem` is, if the kind is 7, the number of what is wrong with the problem; otherwise 0.
    WcspText {
        line: u64,
        kind: u8,
        problem: u8,
    },
    /// The text of a report is refused for a fault of this kind at this line. Lines count from 1,
    /// from the beginning of the problem text that precedes the report.
    ReportText {
        line: u64,
        kind: u8,
    },
    /// The lines of an edit session are refused for a fault of this kind at this line. Lines count
    /// from 1, from the beginning of the problem text that precedes them.
    EditText {
        line: u64,
        kind: u8,
    },
    /// There are more assignments than plain search tries. `assignments` is their number, or
    /// [`u64::MAX`] if that is less.
    Many {
        assignments: u64,
    },
    /// A cut has more than [`MAX_TURNS`](dcop_base::MAX_TURNS) turns. `turns` is their number, or
    /// [`u64::MAX`] if that is less.
    ManyTurns {
        turns: u64,
    },
    /// The joined table of an agent would have too many cells. `cells` is their number, or
    /// [`u64::MAX`] if that is less. `names` are the names of all variables.
    WideAgent {
        var: VarId,
        cells: u64,
        names: Names,
    },
    /// The tables that all agents send would have too many cells in total. `cells` is their number,
    /// or [`u64::MAX`] if that is less.
    WideTotal {
        cells: u64,
    },
    /// The input could not be read.
    Read,
    /// The nodes could not communicate: the wires between them could not be made, or one failed.
    Link,
    /// On the link between two agents of different nodes, the envelope that arrived at this
    /// position differs from the one that was sent. Positions count from 0 within a phase. `sent`
    /// and `taken` are the codes of the two envelopes; a code is `None` if no envelope was sent or
    /// none arrived. `names` are the names of all variables.
    LinkDiffers {
        from: VarId,
        to: VarId,
        at: u64,
        sent: Option<Bytes>,
        taken: Option<Bytes>,
        names: Names,
    },
    /// A node received other bytes from a node than were sent. In the exchange after `round`
    /// rounds, this is the first byte that differs. Positions count from 0 within the bytes of the
    /// exchange from the one node to the other. A byte is `None` if no byte was sent or none
    /// arrived.
    LinkBytes {
        round: u64,
        from_node: u32,
        to_node: u32,
        place: u64,
        sent: Option<u8>,
        taken: Option<u8>,
    },
}

/// The exact text of an answer.
///
/// It is the text of the report, the tree, the verdict, the replay, the summary, the file or the
/// optima of the edits, or the one line of a refusal.
///
/// # Errors
///
/// [`NoMemory`] if memory runs out.
pub fn text_of(alloc: Global, answer: &Answer) -> Result<Bytes, NoMemory>
    requires { HasText answer.now }
    ensures { IfOk result (λ text. text ≡ answer_text answer.now) }
{
    match answer {
        Answer::Report { report, file } => write_report(alloc, report, file),
        Answer::Tree {
            deliveries,
            nodes,
            names,
        } => write_tree(alloc, *deliveries, nodes.as_slice(), names),
        Answer::Verdict { verdict, names } => write_verdict(alloc, verdict, names),
        Answer::Replay {
            events,
            agents,
            names,
        } => write_replay(alloc, *events, agents.as_slice(), names),
        Answer::Drill { summary } => write_summary(alloc, summary),
        Answer::Upgraded { file } => write_problem(alloc, file),
        Answer::UpgradedWcsp { bar, file } => write_barred(alloc, *bar, file),
        Answer::Edits { answers, file } => write_edits(alloc, answers.as_slice(), file),
        _ => refusal_text(alloc, answer),
    }
}

/// The one line of a refusal.
fn refusal_text(alloc: Global, refusal: &Answer) -> Result<Bytes, NoMemory>
    requires named { HasText refusal.now }
    requires refuses { IsRefusal refusal.now }
    ensures { IfOk result (λ text. text ≡ answer_text refusal.now) }
{
    match refusal {
        Answer::Words { at, kind } => refuse_words(alloc, *at, *kind),
        Answer::ProblemText {
            line,
            kind,
            problem,
        } => refuse_text(alloc, *line, *kind, *problem),
        Answer::WcspText {
            line,
            kind,
            problem,
        } => refuse_wcsp(alloc, *line, *kind, *problem),
        Answer::ReportText { line, kind } => refuse_report(alloc, *line, *kind),
        Answer::EditText { line, kind } => refuse_edit(alloc, *line, *kind),
        Answer::Many { assignments } => refuse_many(alloc, *assignments),
        Answer::ManyTurns { turns } => refuse_turns(alloc, *turns),
        Answer::WideAgent { var, cells, names } => refuse_wide(alloc, names.name(*var), *cells),
        Answer::WideTotal { cells } => refuse_total(alloc, *cells),
        Answer::Read => refuse_read(alloc),
        _ => link_refusal_text(alloc, refusal),
    }
}

/// The one line of a refusal because of a link between nodes.
fn link_refusal_text(alloc: Global, refusal: &Answer) -> Result<Bytes, NoMemory>
    requires named { HasText refusal.now }
    requires link { IsLinkRefusal refusal.now }
    ensures { IfOk result (λ text. text ≡ answer_text refusal.now) }
{
    match refusal {
        Answer::Link => refuse_link(alloc),
        Answer::LinkDiffers {
            from,
            to,
            at,
            sent,
            taken,
            names,
        } => refuse_differs(alloc, names.name(*from), names.name(*to), *at, sent, taken),
        Answer::LinkBytes {
            round,
            from_node,
            to_node,
            place,
            sent,
            taken,
        } => refuse_bytes(alloc, *round, *from_node, *to_node, *place, *sent, *taken),
        _ => unreachable!(),
    }
}
