//! Agents of any kind.

ghost use Rattle.agent_links.specs.Kinds.{view_of};

use adopt_agent::AdoptAgent;
use dcop_base::{NoMemory, Table, Val};
use dfs_agent::TokenAgent;
use dpop_agent::DpopAgent;
use protocol_steps::{Batch, Machine, Outbox, Standing};
use pseudotree::Place;

/// The kinds of agents.
#[derive(Drop)]
pub enum Kind {
    /// A token agent.
    Token(TokenAgent),
    /// A DPOP agent.
    Dpop(DpopAgent),
    /// An ADOPT agent.
    Adopt(AdoptAgent),
}

/// An agent of any kind: a machine that does what the agent of its kind does.
///
/// It is a struct over [`Kind`], since the proof that a box keeps the view of what is boxed is found
/// for a struct, and not for an enum.
#[derive(Drop)]
pub struct Agent {
    /// The agent of its kind.
    pub kind: Kind,
}

impl Machine for Agent {
    ghost meaning = { λ a. view_of a };

    fn start(&mut self, out: &mut Outbox) -> Result<(), NoMemory> {
        match &mut self.kind {
            Kind::Token(agent) => agent.start(out),
            Kind::Dpop(agent) => agent.start(out),
            Kind::Adopt(agent) => agent.start(out),
        }
    }

    fn react(&mut self, batch: &Batch, out: &mut Outbox) -> Result<(), NoMemory> {
        match &mut self.kind {
            Kind::Token(agent) => agent.react(batch, out),
            Kind::Dpop(agent) => agent.react(batch, out),
            Kind::Adopt(agent) => agent.react(batch, out),
        }
    }

    fn ended(&self) -> bool {
        match &self.kind {
            Kind::Token(agent) => agent.ended(),
            Kind::Dpop(agent) => agent.ended(),
            Kind::Adopt(agent) => agent.ended(),
        }
    }

    fn value(&self) -> Val {
        match &self.kind {
            Kind::Token(agent) => agent.value(),
            Kind::Dpop(agent) => agent.value(),
            Kind::Adopt(agent) => agent.value(),
        }
    }

    fn standing(&self) -> Standing {
        match &self.kind {
            Kind::Token(agent) => agent.standing(),
            Kind::Dpop(agent) => agent.standing(),
            Kind::Adopt(agent) => agent.standing(),
        }
    }

    fn table(&self) -> Option<&Table> {
        match &self.kind {
            Kind::Token(agent) => agent.table(),
            Kind::Dpop(agent) => agent.table(),
            Kind::Adopt(agent) => agent.table(),
        }
    }

    fn place(&self) -> Option<&Place> {
        match &self.kind {
            Kind::Token(agent) => agent.place(),
            Kind::Dpop(agent) => agent.place(),
            Kind::Adopt(agent) => agent.place(),
        }
    }
}
