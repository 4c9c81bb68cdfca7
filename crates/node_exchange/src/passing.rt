//! What one exchange passes on one link.

ghost use Rattle.std.specs.Prelude.{◌≡◌, ◌↔◌, ◌∷◌, ◌++◌, [], true, OnOk, OnErr};
ghost use Rattle.node_exchange.specs.Passings.{leads, SamePassing, holding, emptied};

use dcop_base::{NoMemory, VarId};
use protocol_steps::Envelope;
use std::alloc::Global;
use std::marker::Model;

/// A link with the agents and the nodes at its ends, what an exchange drained of it, and what has
/// arrived on it so far. Contracts see these six parts.
#[derive(Drop)]
pub struct LinkPassing {
    from: VarId,
    to: VarId,
    from_node: u32,
    to_node: u32,
    drained: Vec<Envelope>,
    arrived: Vec<Envelope>,
}

impl Model for LinkPassing {
    ghost use Rattle.node_exchange.specs.Passings.{Passing};

    ghost Value = { Passing };

    ghost view = { λ p. record { from = p.from; to = p.to; from_node = p.from_node; to_node = p.to_node; drained = p.drained.items; arrived = p.arrived.items } };
}

impl LinkPassing {
    /// A link of which these envelopes were drained, and on which nothing has arrived. The sender
    /// and its node come first in the two pairs.
    pub fn new(
        alloc: Global,
        ends: (VarId, VarId),
        nodes: (u32, u32),
        drained: Vec<Envelope>,
    ) -> LinkPassing
        ensures ends { (result.from ≡ ends.0) × (result.to ≡ ends.1) }
        ensures nodes { (result.from_node ≡ nodes.0) × (result.to_node ≡ nodes.1) }
        ensures lists { (result.drained ≡ drained.items) × (result.arrived ≡ []) }
    {
        LinkPassing {
            from: ends.0,
            to: ends.1,
            from_node: nodes.0,
            to_node: nodes.1,
            drained,
            arrived: Vec::new(alloc),
        }
    }

    /// The agent that sends on the link.
    pub fn from(&self) -> VarId
        ensures { result ≡ self.now.from }
    {
        self.from
    }

    /// The agent that receives on the link.
    pub fn to(&self) -> VarId
        ensures { result ≡ self.now.to }
    {
        self.to
    }

    /// What was drained, oldest first.
    pub fn drained(&self) -> &[Envelope]
        ensures { result.now ≡ self.now.drained }
    {
        self.drained.as_slice()
    }

    /// Whether nothing was drained and nothing has arrived.
    pub fn is_idle(&self) -> bool
        ensures { (result ≡ true) ↔ ((self.now.drained ≡ []) × (self.now.arrived ≡ [])) }
    {
        self.drained.is_empty() && self.arrived.is_empty()
    }

    /// Whether the link leads from the one node to the other.
    pub fn leads(&self, from_node: u32, to_node: u32) -> bool
        ensures { result ≡ leads from_node to_node self.now }
    {
        let (from, to) = (self.from_node, self.to_node);
        from == from_node && to == to_node
    }

    /// Replaces what was drained.
    pub fn hold(&mut self, drained: Vec<Envelope>)
        ensures { self.new ≡ holding self.old drained.items }
    {
        self.drained = drained;
    }

    /// Adds an envelope that has arrived.
    ///
    /// # Errors
    ///
    /// [`NoMemory`] if memory runs out. The link stays as it was.
    pub fn receive(&mut self, envelope: Envelope) -> Result<(), NoMemory>
        ensures same { SamePassing self.old self.new }
        ensures arrived { OnOk result (self.new.arrived ≡ self.old.arrived ++ envelope ∷ []) }
        ensures none { OnErr result (self.new ≡ self.old) }
    {
        self.arrived.push(envelope)?;
        Ok(())
    }

    /// Takes out what was drained and what arrived, in this order. Both lists are then empty.
    pub fn take_lists(&mut self, alloc: Global) -> (Vec<Envelope>, Vec<Envelope>)
        ensures lists { (result.0.items ≡ self.old.drained) × (result.1.items ≡ self.old.arrived) }
        ensures left { self.new ≡ emptied self.old }
    {
        let drained = std::mem::replace(&mut self.drained, Vec::new(alloc));
        let arrived = std::mem::replace(&mut self.arrived, Vec::new(alloc));
        (drained, arrived)
    }
}
