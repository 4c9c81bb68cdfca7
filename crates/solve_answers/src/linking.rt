//! The answers about links between nodes.

ghost use Rattle.std.specs.Prelude.{◌≡◌, ◌<◌, length, IfOk};
ghost use Rattle.solve_report.specs.AnswerText.{HasText};
ghost use Rattle.solve_methods.specs.Goal.{TellsRight};
ghost use Rattle.solve_answers.specs.Nodes.{code_in, difference_answer, IsFaultNamed, TellsNodeFault};

use dcop_base::{Bytes, NoMemory};
use message_code::encode;
use problem_text::Names;
use protocol_steps::Envelope;
use solve_report::Answer;
use std::alloc::Global;
use tcp_links::{Difference, NodeFault};

/// The answer to a fault of agents in nodes, given the names of their variables.
///
/// # Errors
///
/// [`NoMemory`] if memory runs out, also if the fault itself says so; never if the fault says that
/// the links failed.
pub(crate) fn fault_told(alloc: Global, names: Names, fault: NodeFault) -> Result<Answer, NoMemory>
    requires named { IsFaultNamed (length names) fault }
    ensures told { TellsNodeFault names fault result }
    ensures right { IfOk result TellsRight }
    ensures text { IfOk result HasText }
{
    match fault {
        NodeFault::Failed => Ok(Answer::Link),
        NodeFault::Differs(difference) => difference_told(alloc, names, difference),
        NodeFault::NoMemory => Err(NoMemory),
    }
}

/// The answer that reports a difference.
fn difference_told(alloc: Global, names: Names, difference: Difference) -> Result<Answer, NoMemory>
    ensures { IfOk result (λ answer. answer ≡ difference_answer names difference) }
{
    match difference {
        Difference::Message {
            from,
            to,
            at,
            sent,
            taken,
        } => Ok(Answer::LinkDiffers {
            from,
            to,
            at,
            sent: code_in(alloc, sent)?,
            taken: code_in(alloc, taken)?,
            names,
        }),
        Difference::Bytes {
            round,
            from_node,
            to_node,
            place,
            sent,
            taken,
        } => Ok(Answer::LinkBytes {
            round,
            from_node,
            to_node,
            place,
            sent,
            taken,
        }),
    }
}

/// The code of an envelope, if there is one.
fn code_in(alloc: Global, envelope: Option<Envelope>) -> Result<Option<Bytes>, NoMemory>
    ensures { IfOk result (λ code. code ≡ code_in envelope) }
{
    match envelope {
        None => Ok(None),
        Some(envelope) => Ok(Some(encode(alloc, &envelope)?)),
    }
}
