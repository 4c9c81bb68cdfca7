//! How an agent handles one message.

ghost use Rattle.std.specs.Prelude.{◌≡◌, ◌<◌, ◌≤◌, ◌==◌, ◌||◌, ◌&&◌, not, nat_lt, true, length, is_some, IfOk, OnOk, if◌then◌else◌};
ghost use Rattle.std.specs.List.{fold};
ghost use Rattle.dcop_base.specs.Limits.{amount_limit};
ghost use Rattle.dcop_base.specs.Table.{has};
ghost use Rattle.adopt_context.specs.Context.{AscendsFrom, Context, part_of, put, value_in};
ghost use Rattle.protocol_steps.specs.declared.message.Message.TheVariants.{Value, Cost, Threshold, Terminate};
ghost use Rattle.protocol_steps.specs.Ranges.{IsBound};
ghost use Rattle.protocol_steps.specs.AdoptBounds.{at_context, restore};
ghost use Rattle.protocol_steps.specs.AdoptRange.{fits};
ghost use Rattle.protocol_steps.specs.AdoptCost.{learn, learned, stored};
ghost use Rattle.protocol_steps.specs.AdoptMessage.{adopt_message, takes_from_parent, takes_value};
ghost use Rattle.adopt_agent.specs.Deed.{IsSameAgent};

use crate::agent::AdoptAgent;
use crate::choose::best_of;
use crate::order::place_in;
use crate::range::{fit, is_near_above, is_parent};
use adopt_context::AgentContext;
use dcop_base::{NoMemory, Val, VarId, stands_in};
use protocol_steps::{Letter, Message};

/// What is known, extended by the pairs of a COST's context whose variables are not neighbours or
/// not known yet.
fn learned(
    known: &AgentContext,
    neighbours: &[VarId],
    context: &AgentContext,
) -> Result<AgentContext, NoMemory>
    ensures { IfOk result (λ all. all ≡ fold (λ x p.
        if not (has neighbours.now p.0) || not (is_some (value_in x p.0)) then put x p.0 p.1 else x)
        known.now context.now) }
{
    let mut all = known.copy()?;
    for pair in context.pairs() {
        if !stands_in(neighbours, pair.0) || all.get(pair.0).is_none() {
            all.set(pair.0, pair.1)?;
        }
    }
    Ok(all)
}

/// Whether a context already gives a variable this value.
fn gives(known: &AgentContext, var: VarId, value: Val) -> bool
    ensures { result ≡ true → put known.now var value ≡ known.now }
{
    if known.pairs().is_empty() {
        return false;
    }
    match known.get(var) {
        Some(other) => other == value,
        None => false,
    }
}

/// Whether a context contains nothing new: all its pairs are known.
fn is_known(known: &AgentContext, context: &AgentContext) -> bool
    ensures part { result ≡ true → part_of context.now known.now ≡ true }
    ensures ascend { AscendsFrom 0 known.now }
{
    if known.pairs().len() < context.pairs().len() {
        return false;
    }
    context.part_of(known)
}

impl AdoptAgent {
    /// Whether VALUE is taken.
    fn takes_value(&self, from: VarId, value: Val) -> bool
        ensures { result ≡ takes_value self.now from value }
    {
        !self.told_to_end && is_near_above(&self.own, &self.place, from, value)
    }

    /// Learns the value of a higher neighbour, if VALUE is taken.
    fn take_value(&mut self, from: VarId, value: Val) -> Result<(), NoMemory>
        ensures same { IsSameAgent self.old self.new }
        ensures taken { OnOk result (self.new ≡ adopt_message self.old from (Value value)) }
    {
        if !self.takes_value(from, value) {
            return Ok(());
        }
        if gives(&self.known, from, value) {
            self.restore();
            return Ok(());
        }
        if self.known.get(from).is_none() {
            return self.know_more(from, value);
        }
        self.know_other(from, value)
    }

    /// Whether a context fits the path. A part of what is known always does.
    fn fits(&self, context: &AgentContext) -> bool
        ensures { result ≡ fits self.now context.now }
    {
        if is_known(&self.known, context) {
            return true;
        }
        fit(&self.place, context.pairs())
    }

    /// Whether THRESHOLD or TERMINATE with this context is taken.
    fn takes_from_parent(&self, from: VarId, context: &AgentContext) -> bool
        ensures { result ≡ takes_from_parent self.now from context.now }
    {
        !self.told_to_end && is_parent(self.place.path.as_slice(), from) && self.fits(context)
    }

    /// Stores a threshold as the last one received, if THRESHOLD is taken. It becomes the threshold
    /// if its context is compatible with what is known.
    fn take_threshold(&mut self, from: VarId, amount: u64, context: &AgentContext)
        requires { amount ≤ amount_limit }
        ensures same { IsSameAgent self.old self.new }
        ensures taken { self.new ≡ adopt_message self.old from (Threshold amount context.now) }
    {
        if !self.takes_from_parent(from, context) {
            return;
        }
        self.last_received = amount;
        if context.compatible(&self.known) {
            self.threshold = amount;
            self.restore();
        }
    }

    /// Learns the final values of the path, if TERMINATE is taken. The last threshold received
    /// becomes the threshold.
    fn take_end(&mut self, from: VarId, context: &AgentContext) -> Result<(), NoMemory>
        ensures same { IsSameAgent self.old self.new }
        ensures taken { OnOk result (self.new ≡ adopt_message self.old from (Terminate context.now)) }
    {
        if !self.takes_from_parent(from, context) {
            return Ok(());
        }
        let known = context.copy()?;
        self.told_to_end = true;
        self.threshold = self.last_received;
        self.move_to(known);
        Ok(())
    }

    /// Learns from the context of a COST, before TERMINATE.
    fn learn(&mut self, rest: &AgentContext) -> Result<(), NoMemory>
        requires { fits self.old rest.now ≡ true }
        ensures same { IsSameAgent self.old self.new }
        ensures learned { OnOk result (self.new ≡ learn self.old rest.now) }
    {
        if self.told_to_end {
            return Ok(());
        }
        if is_known(&self.known, rest) {
            self.restore();
            return Ok(());
        }
        let known = learned(&self.known, self.own.neighbours.as_slice(), rest)?;
        self.move_to(known);
        Ok(())
    }

    /// Whether all these values are known.
    fn knows(&self, values: &AgentContext) -> bool
        ensures { result ≡ part_of values.now self.now.known }
    {
        values.part_of(&self.known)
    }

    /// Stores the bounds of the child at this place, if their context is part of what is known and
    /// they do not cross the stored ones.
    fn store(
        &mut self,
        d: Val,
        place: usize,
        rest: &AgentContext,
        lower: u64,
        upper: Option<u64>,
    ) -> Result<(), NoMemory>
        requires value { d < self.old.own.size }
        requires place { place < length self.old.place.children }
        requires lower { lower ≤ amount_limit }
        requires upper { IsBound upper }
        ensures same { IsSameAgent self.old self.new }
        ensures stored { OnOk result (self.new ≡ stored self.old d place rest.now lower upper) }
    {
        if !self.knows(rest) {
            return Ok(());
        }
        if self.bounds.store_at(d, place, rest, lower, upper)? {
            self.best = best_of(self.costs.as_slice(), self.knows_higher, &self.bounds);
            self.restore();
        }
        Ok(())
    }

    /// Whether bounds for this value and this context are taken.
    fn takes_bounds(&self, d: Val, rest: &AgentContext) -> bool
        ensures { result ≡ (nat_lt d self.now.own.size && fits self.now rest.now) }
    {
        d.0 < self.own.size && self.fits(rest)
    }

    /// Learns from a COST and stores its bounds, if it comes from a child and its context fits and
    /// gives the agent a value.
    fn take_cost(
        &mut self,
        from: VarId,
        context: &AgentContext,
        lower: u64,
        upper: Option<u64>,
    ) -> Result<(), NoMemory>
        requires lower { lower ≤ amount_limit }
        requires upper { IsBound upper }
        ensures same { IsSameAgent self.old self.new }
        ensures taken { OnOk result
            (self.new ≡ adopt_message self.old from (Cost context.now lower upper)) }
    {
        let Some(place) = place_in(self.place.children.as_slice(), from) else {
            return Ok(());
        };
        let Some(d) = context.get(self.own.me) else {
            return Ok(());
        };
        let rest = context.without(self.own.me)?;
        if !self.takes_bounds(d, &rest) {
            return Ok(());
        }
        self.learn(&rest)?;
        self.store(d, place, &rest, lower, upper)
    }

    /// Handles one message. A message that is not taken is ignored.
    pub(crate) fn handle(&mut self, letter: &Letter) -> Result<(), NoMemory>
        ensures same { IsSameAgent self.old self.new }
        ensures taken { OnOk result
            (self.new ≡ adopt_message self.old letter.now.0 letter.now.1) }
    {
        match &letter.message {
            Message::Value { value } => self.take_value(letter.from, *value),
            Message::Threshold { amount, context } => {
                self.take_threshold(letter.from, *amount, context);
                Ok(())
            }
            Message::Cost {
                context,
                lower,
                upper,
            } => self.take_cost(letter.from, context, *lower, *upper),
            Message::Terminate { context } => self.take_end(letter.from, context),
            _ => Ok(()),
        }
    }
}
