//! Why a run of nodes failed.

ghost use Rattle.std.specs.Prelude.{◌≡◌};
ghost use Rattle.tcp_links.specs.Faults.{node_fault};

use dcop_base::{NoMemory, VarId};
use link_records::LinkDifference;
use node_exchange::PassFault;
use protocol_steps::Envelope;

/// What was sent and what was received, when they differ.
#[derive(Drop)]
pub enum Difference {
    /// On the lowest link that differs, by its sender and then its receiver: the first position at
    /// which the envelope that arrived is not the one that was drained in the same exchange. If one
    /// of the exchange's two lists ends there, its envelope is `None`.
    Message {
        /// The agent that sends on the link.
        from: VarId,
        /// The agent that receives on the link.
        to: VarId,
        /// The position on the link in this run, from 0: how many envelopes the link had drained
        /// before. Positions from 2^64 - 1 up are all given as 2^64 - 1.
        at: u64,
        /// The envelope that was drained.
        sent: Option<Envelope>,
        /// The envelope that arrived.
        taken: Option<Envelope>,
    },
    /// The bytes that a node received are not whole frames of envelopes from an agent of the other
    /// node to a neighbour in this one. The fields give the first byte that differs from what was
    /// sent.
    Bytes {
        /// The number of rounds before the exchange; 0 for the exchange after the start.
        round: u64,
        /// The node that sent.
        from_node: u32,
        /// The node that received.
        to_node: u32,
        /// The position in that exchange's bytes from the one node to the other, from 0.
        place: u64,
        /// The byte that was sent; `None` if the bytes that were sent are over.
        sent: Option<u8>,
        /// The byte that was received; `None` if the bytes that were received are over.
        taken: Option<u8>,
    },
}

impl From<LinkDifference> for Difference {
    ghost use Rattle.tcp_links.specs.declared.fault.Difference.TheVariants.{Message as message};

    ghost from_gives = { λ d e. e ≡ message d.from d.to d.at d.sent d.taken };

    fn from(found: LinkDifference) -> Self {
        Difference::Message {
            from: found.from,
            to: found.to,
            at: found.at,
            sent: found.sent,
            taken: found.taken,
        }
    }
}

/// Why a run of nodes failed.
#[derive(Drop)]
pub enum NodeFault {
    /// The dialer failed, or a wire did and was charged to it. The dialer's count of faults rose.
    Failed,
    /// What arrived is not what was sent.
    Differs(Difference),
    /// Memory ran out.
    NoMemory,
}

impl From<NoMemory> for NodeFault {
    ghost use Rattle.tcp_links.specs.declared.fault.NodeFault.TheVariants.{NoMemory as no_memory};

    ghost from_gives = { λ _ e. e ≡ no_memory };

    fn from(_refused: NoMemory) -> Self {
        NodeFault::NoMemory
    }
}

/// The fault of the exchange after `round` rounds.
pub(crate) fn node_fault(round: u64, fault: PassFault) -> NodeFault
    ensures { result ≡ node_fault round fault }
{
    match fault {
        PassFault::Failed => NodeFault::Failed,
        PassFault::Bytes {
            from_node,
            to_node,
            place,
            sent,
            taken,
        } => NodeFault::Differs(Difference::Bytes {
            round,
            from_node,
            to_node,
            place,
            sent,
            taken,
        }),
        PassFault::NoMemory => NodeFault::NoMemory,
    }
}
