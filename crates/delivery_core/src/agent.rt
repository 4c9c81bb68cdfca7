//! An agent of any kind: token, DPOP or ADOPT.

ghost use Rattle.std.specs.Prelude.{◌≡◌, ◌≤◌, [], IfOk, OnOk, OnErr, MatchOption, Some, None};
ghost use Rattle.std.specs.List.{All};
ghost use Rattle.dcop_base.specs.Limits.{amount_limit};
ghost use Rattle.protocol_steps.specs.Token.{new_token};
ghost use Rattle.protocol_steps.specs.Dpop.{new_dpop};
ghost use Rattle.protocol_steps.specs.Adopt.{new_adopt};
ghost use Rattle.protocol_steps.specs.View.{TokenKind, DpopKind, AdoptKind, made_of, ended_of, value_of, standing_of, table_of, place_of, context_of};
ghost use Rattle.protocol_steps.specs.Knowledge.{IsKnowledge};
ghost use Rattle.protocol_steps.specs.Placing.{IsPlaceFor};
ghost use Rattle.protocol_steps.specs.Machine.{MayStart, MayReact, IsBatch, IsStart, IsStep, IsToNeighbour};

use adopt_agent::AdoptAgent;
use adopt_context::AgentContext;
use dcop_base::{CAP, NoMemory, Private, Table, Val};
use dfs_agent::TokenAgent;
use dpop_agent::DpopAgent;
use protocol_steps::{Batch, Machine, Outbox, Standing};
use pseudotree::Place;
use std::alloc::Global;
use std::marker::Model;

/// The kinds of agents. An ADOPT agent is by far the largest, so it is boxed; agents of the other
/// kinds then lie closer together in memory.
#[derive(Drop)]
pub(crate) enum Kind {
    Token(TokenAgent),
    Dpop(DpopAgent),
    Adopt(Box<AdoptAgent>),
}

/// An agent of any kind. Contracts see its view.
#[derive(Drop)]
pub(crate) struct Agent {
    kind: Kind,
}

impl Model for Agent {
    ghost use Rattle.protocol_steps.specs.View.{View};

    ghost Value = { View };

    ghost use Rattle.delivery_core.specs.Kinds.{view_of};

    ghost view = { λ a. view_of a.kind };
}

impl Agent {
    /// Makes a token agent from what it knows.
    pub(crate) fn token(alloc: Global, own: Private) -> Result<Agent, NoMemory>
        requires { IsKnowledge own }
        ensures { IfOk result (λ agent. agent ≡ TokenKind (new_token own)) }
    {
        let agent = TokenAgent::new(alloc, own)?;
        Ok(Agent {
            kind: Kind::Token(agent),
        })
    }

    /// Makes a DPOP agent from what it knows and its place in a pseudotree.
    pub(crate) fn dpop(alloc: Global, own: Private, place: Place) -> Result<Agent, NoMemory>
        requires known { IsKnowledge own }
        requires placed { IsPlaceFor own place }
        ensures { IfOk result (λ agent. agent ≡ DpopKind (new_dpop own place)) }
    {
        let agent = DpopAgent::new(alloc, own, place)?;
        Ok(Agent {
            kind: Kind::Dpop(agent),
        })
    }

    /// Makes an ADOPT agent from what it knows and its place in a pseudotree, for a requested error
    /// of at most 2^62.
    pub(crate) fn adopt(
        alloc: Global,
        own: Private,
        place: Place,
        error: u64,
    ) -> Result<Agent, NoMemory>
        requires known { IsKnowledge own }
        requires placed { IsPlaceFor own place }
        requires error { error ≤ amount_limit }
        ensures { IfOk result (λ agent. agent ≡ AdoptKind (new_adopt own place error)) }
    {
        let agent = AdoptAgent::new(alloc, own, place, error)?;
        Ok(Agent {
            kind: Kind::Adopt(Box::new(alloc, agent)?),
        })
    }

    /// Starts the agent. `out`, which must be empty, gets what it sends.
    pub(crate) fn start(&mut self, out: &mut Outbox) -> Result<(), NoMemory>
        requires ready { MayStart self.old }
        requires empty { out.old ≡ [] }
        ensures ok { OnOk result (IsStart self.old self.new out.new) }
        ensures receivers { All (IsToNeighbour self.old) out.new }
    {
        match &mut self.kind {
            Kind::Token(agent) => agent.start(out),
            Kind::Dpop(agent) => agent.start(out),
            Kind::Adopt(agent) => agent.start(out),
        }
    }

    /// Activates the agent once on a whole batch. `out`, which must be empty, gets what it sends.
    pub(crate) fn react(&mut self, batch: &Batch, out: &mut Outbox) -> Result<(), NoMemory>
        requires ready { MayReact self.old }
        requires empty { out.old ≡ [] }
        requires batch { IsBatch self.old batch.now }
        ensures ok { OnOk result (IsStep self.old batch.now self.new out.new) }
        ensures receivers { All (IsToNeighbour self.old) out.new }
    {
        match &mut self.kind {
            Kind::Token(agent) => agent.react(batch, out),
            Kind::Dpop(agent) => agent.react(batch, out),
            Kind::Adopt(agent) => agent.react(batch, out),
        }
    }

    /// Whether the agent has ended.
    pub(crate) fn ended(&self) -> bool
        ensures { result ≡ ended_of self.now }
    {
        match &self.kind {
            Kind::Token(agent) => agent.ended(),
            Kind::Dpop(agent) => agent.ended(),
            Kind::Adopt(agent) => agent.ended(),
        }
    }

    /// The agent's value.
    pub(crate) fn value(&self) -> Val
        ensures { result ≡ value_of self.now }
    {
        match &self.kind {
            Kind::Token(agent) => agent.value(),
            Kind::Dpop(agent) => agent.value(),
            Kind::Adopt(agent) => agent.value(),
        }
    }

    /// The agent's lower bound, upper bound and threshold.
    pub(crate) fn standing(&self) -> Standing
        ensures { result ≡ standing_of self.now }
    {
        match &self.kind {
            Kind::Token(agent) => agent.standing(),
            Kind::Dpop(agent) => agent.standing(),
            Kind::Adopt(agent) => agent.standing(),
        }
    }

    /// The context of an ADOPT agent; `None` for agents of other kinds.
    pub(crate) fn context(&self) -> Option<&AgentContext>
        ensures { MatchOption result (context_of self.now ≡ None) (λ c. context_of self.now ≡ Some c.now) }
    {
        match &self.kind {
            Kind::Token(_) | Kind::Dpop(_) => None,
            Kind::Adopt(agent) => Some(agent.context()),
        }
    }

    /// The place of a token agent that has ended; `None` for every other agent.
    pub(crate) fn place(&self) -> Option<&Place>
        ensures { MatchOption result (place_of self.now ≡ None) (λ p. place_of self.now ≡ Some p.now) }
    {
        match &self.kind {
            Kind::Token(agent) => agent.place(),
            Kind::Dpop(agent) => agent.place(),
            Kind::Adopt(agent) => agent.place(),
        }
    }

    /// What the agent has made: the UTIL table of a DPOP agent that has joined, and the place of a
    /// token agent that has ended.
    pub(crate) fn into_made(self) -> (Option<Table>, Option<Place>)
        ensures table { result.0 ≡ table_of self }
        ensures place { result.1 ≡ place_of self }
    {
        match self.kind {
            Kind::Token(agent) => (None, agent.into_place()),
            Kind::Dpop(agent) => (agent.into_table(), None),
            Kind::Adopt(_) => (None, None),
        }
    }

    /// The UTIL table that a DPOP agent has made; `None` for every other agent.
    pub(crate) fn table(&self) -> Option<&Table>
        ensures { MatchOption result (table_of self.now ≡ None) (λ t. table_of self.now ≡ Some t.now) }
    {
        match &self.kind {
            Kind::Token(agent) => agent.table(),
            Kind::Dpop(agent) => agent.table(),
            Kind::Adopt(agent) => agent.table(),
        }
    }
}
