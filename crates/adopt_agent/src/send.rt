//! The messages of an agent to its neighbours at the end of an activation.

ghost use Rattle.std.specs.Prelude.{◌≡◌, ◌++◌, ◌==◌, [], Some, IfOk, OnOk};
ghost use Rattle.std.specs.List.{flat_map, position};
ghost use Rattle.adopt_context.specs.Context.{put};
ghost use Rattle.protocol_steps.specs.declared.message.Message.TheVariants.{Cost, Terminate, Threshold};
ghost use Rattle.protocol_steps.specs.AdoptBounds.{lower_bound, upper_bound};
ghost use Rattle.protocol_steps.specs.AdoptStep.{adopt_sends, messages_for, share_of};
ghost use Rattle.adopt_agent.specs.Deed.{all_to, to_child, to_lower, to_parent};

use crate::agent::AdoptAgent;
use crate::order::{is_among, place_in};
use crate::range::is_parent;
use crate::stage::Stage;
use dcop_base::{NoMemory, VarId};
use protocol_steps::{Message, Parcel};

impl AdoptAgent {
    /// VALUE for a lower neighbour.
    fn tell_lower(&self, to: VarId, parcels: &mut Vec<Parcel>) -> Result<(), NoMemory>
        ensures { OnOk result
            (parcels.new.items ≡ parcels.old.items ++ all_to to (to_lower self.now to)) }
    {
        if is_among(self.place.lower.as_slice(), to) {
            let message = Message::Value { value: self.value };
            parcels.push(Parcel { to, message })?;
        }
        Ok(())
    }

    /// THRESHOLD for the child at this place, with its share of the threshold.
    fn threshold_for(&self, to: VarId, place: usize) -> Result<Parcel, NoMemory>
        requires { position (λ child. child == to) self.now.place.children ≡ Some place }
        ensures { IfOk result (λ parcel. parcel ≡ (to, Threshold (share_of self.now to) self.now.known)) }
    {
        let message = Message::Threshold {
            amount: self.bounds.share_at(self.value, place),
            context: self.known.copy()?,
        };
        Ok(Parcel { to, message })
    }

    /// TERMINATE, with the final values of a child's path.
    fn end_for(&self, to: VarId) -> Result<Parcel, NoMemory>
        ensures { IfOk result (λ parcel. parcel
            ≡ (to, Terminate (put self.now.known self.now.own.me self.now.value))) }
    {
        let mut context = self.known.copy()?;
        context.set(self.own.me, self.value)?;
        let message = Message::Terminate { context };
        Ok(Parcel { to, message })
    }

    /// COST, with the bounds of the agent's subtree.
    fn cost_for(&self, to: VarId) -> Result<Parcel, NoMemory>
        ensures { IfOk result (λ parcel. parcel
            ≡ (to, Cost self.now.known (lower_bound self.now) (upper_bound self.now))) }
    {
        let message = Message::Cost {
            context: self.known.copy()?,
            lower: self.lower_bound(),
            upper: self.upper_bound(),
        };
        Ok(Parcel { to, message })
    }

    /// Whether the agent has ended.
    pub(crate) fn has_ended(&self) -> bool
        ensures { result ≡ self.now.phase.ended }
    {
        matches!(self.stage, Stage::Ended)
    }

    /// THRESHOLD for a child, and TERMINATE if the agent has ended.
    fn tell_child(&self, to: VarId, parcels: &mut Vec<Parcel>) -> Result<(), NoMemory>
        ensures { OnOk result
            (parcels.new.items ≡ parcels.old.items ++ all_to to (to_child self.now to)) }
    {
        let Some(place) = place_in(self.place.children.as_slice(), to) else {
            return Ok(());
        };
        parcels.push(self.threshold_for(to, place)?)?;
        if self.has_ended() {
            parcels.push(self.end_for(to)?)?;
        }
        Ok(())
    }

    /// COST for the parent, if the agent has not ended.
    fn tell_parent(&self, to: VarId, parcels: &mut Vec<Parcel>) -> Result<(), NoMemory>
        ensures { OnOk result
            (parcels.new.items ≡ parcels.old.items ++ all_to to (to_parent self.now to)) }
    {
        if is_parent(self.place.path.as_slice(), to) && !self.has_ended() {
            parcels.push(self.cost_for(to)?)?;
        }
        Ok(())
    }

    /// The messages to a neighbour.
    fn tell(&self, to: VarId, parcels: &mut Vec<Parcel>) -> Result<(), NoMemory>
        ensures { OnOk result
            (parcels.new.items ≡ parcels.old.items ++ all_to to (messages_for self.now to)) }
    {
        self.tell_lower(to, parcels)?;
        self.tell_child(to, parcels)?;
        self.tell_parent(to, parcels)
    }

    /// The messages to these neighbours, in their order. They use the memory of `parcels`, which
    /// must be empty.
    fn tell_each(
        &self,
        neighbours: &[VarId],
        mut parcels: Vec<Parcel>,
    ) -> Result<Vec<Parcel>, NoMemory>
        requires { parcels.items ≡ [] }
        ensures { IfOk result (λ ps. ps.items
            ≡ flat_map (λ j. all_to j (messages_for self.now j)) neighbours.now) }
    {
        for to in neighbours {
            self.tell(*to, &mut parcels)?;
        }
        Ok(parcels)
    }

    /// The messages to all neighbours, in ascending order of the receivers. They use the memory of
    /// `lent`, which must be empty.
    pub(crate) fn tell_all(&self, lent: Vec<Parcel>) -> Result<Vec<Parcel>, NoMemory>
        requires { lent.items ≡ [] }
        ensures { IfOk result (λ ps. ps.items ≡ adopt_sends self.now) }
    {
        self.tell_each(self.own.neighbours.as_slice(), lent)
    }
}
