//! An agent with the ends of its links.

ghost use Rattle.std.specs.Prelude.{◌≡◌, false, []};
ghost use Rattle.std.specs.List.{All};
ghost use Rattle.std.specs.List.Sorted.{IsStrictlyIncreasing};
ghost use Rattle.protocol_steps.specs.View.{private_of, started_of};
ghost use Rattle.worker_laws.specs.Cells.{peers};
ghost use Rattle.agent_cells.specs.Links.{lanes_sent, lanes_taken};
ghost use Rattle.agent_links.specs.Kinds.{view_of};

use crate::agent::Agent;
use agent_cells::{HeadList, TailList};
use dcop_base::VarId;

/// An agent that has not started, with the ends of its links, on which nothing was sent.
#[derive(Drop)]
pub struct Seat {
    /// The agent.
    pub agent: Agent,
    /// Its number.
    pub me: VarId,
    /// The ends on which it sends, each with the neighbour at the other end, in ascending order.
    pub tails: TailList,
    /// The ends from which it takes, each with the neighbour at the other end, in ascending order.
    pub heads: HeadList,
    ghost fresh: { started_of (view_of agent) ≡ false },
    ghost own: { (private_of (view_of agent)).me ≡ me },
    ghost ascend: { IsStrictlyIncreasing (private_of (view_of agent)).neighbours },
    ghost tail_peers: { peers (lanes_sent tails.items) ≡ (private_of (view_of agent)).neighbours },
    ghost head_peers: { peers (lanes_taken heads.items) ≡ (private_of (view_of agent)).neighbours },
    ghost unsent: { All (λ l. l.messages ≡ []) (lanes_sent tails.items) },
    ghost untaken: { All (λ l. l.messages ≡ []) (lanes_taken heads.items) },
}
