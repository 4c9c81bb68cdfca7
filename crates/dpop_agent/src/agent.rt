//! The DPOP agent.

ghost use Rattle.std.specs.Prelude.{◌≡◌, true, [], ◌↔◌, map, replicate, Some, None, is_some, IfOk, IfSome, OnOk, OnErr, IsErr, MatchOption};
ghost use Rattle.std.specs.List.{All};
ghost use Rattle.dcop_base.specs.Table.{AreWithin};
ghost use Rattle.protocol_steps.specs.declared.message.Message.TheVariants.{Util, ValueAll};
ghost use Rattle.protocol_steps.specs.Agent.{not_started};
ghost use Rattle.protocol_steps.specs.Ranges.{AreCells, IsContext};
ghost use Rattle.protocol_steps.specs.Values.{valued};
ghost use Rattle.protocol_steps.specs.Knowledge.{IsKnowledge};
ghost use Rattle.protocol_steps.specs.Placing.{IsPlaceFor};
ghost use Rattle.protocol_steps.specs.Dpop.{new_dpop, separator, size_of};
ghost use Rattle.protocol_steps.specs.DpopJoin.{decide, join};
ghost use Rattle.protocol_steps.specs.DpopStep.{dpop_message, dpop_start, dpop_step, takes_values};
ghost use Rattle.protocol_steps.specs.View.{DpopKind};
ghost use Rattle.dpop_agent.specs.Stage.{working};
ghost use Rattle.dpop_agent.specs.Deed.{GivesDpopStep, IsRunning};
ghost use Rattle.dpop_agent.specs.Joint.{IsOver};

use crate::best::best_of;
use crate::child::{are_sized, is_parent, table_of, util_for};
use crate::separator::{Over, variables_with};
use crate::stage::{Stage, has_ended};
use crate::util::util_of;
use crate::values::values_for;
use adopt_context::AgentContext;
use dcop_base::{CellList, NoMemory, Private, Table, Val, VarId, position_of};
use protocol_steps::{Batch, Letter, Machine, Message, Outbox, Parcel, Standing};
use pseudotree::Place;
use std::alloc::Global;
use std::marker::Model;
use std::mem;

/// A DPOP agent: its part in the propagation of UTIL tables and values. Contracts see its view.
///
/// It keeps the tables that its children send. When it has all of them, it joins them with its own
/// tables, and keeps the table that it projects from the result. When values arrive, it finds its
/// own value from the same tables.
#[derive(Debug, Drop)]
pub struct DpopAgent {
    alloc: Global,
    /// What it knows of the problem.
    own: Private,
    place: Place,
    stage: Stage,
    /// The table of each child, in the order of the children, once it has arrived.
    kept: Vec<Option<Table>>,
    /// The UTIL table, projected from the joined table, which is not kept.
    made: Option<Table>,
    value: Val,
}

impl Model for DpopAgent {
    ghost use Rattle.protocol_steps.specs.Dpop.{DpopView};
    ghost use Rattle.dpop_agent.specs.Stage.{view_at};
    ghost use Rattle.dpop_agent.specs.Sound.{IsSound};

    ghost Value = { DpopView };

    ghost view = { λ a. view_at a.own a.place a.stage a.kept.items a.made a.value };

    ghost invariant = { λ a. IsSound a.own a.place a.stage a.kept.items a.made };
}

impl DpopAgent {
    /// The agent that knows this part of a problem, with this place in a tree, before its start.
    ///
    /// # Errors
    ///
    /// [`NoMemory`] if memory runs out. The arguments are dropped in that case.
    pub fn new(alloc: Global, own: Private, place: Place) -> Result<DpopAgent, NoMemory>
        requires known { IsKnowledge own }
        requires placed { IsPlaceFor own place }
        ensures { IfOk result (λ agent. agent ≡ new_dpop own place) }
    {
        let kept = empty_places(alloc, place.children.as_slice().len())?;
        Ok(DpopAgent {
            alloc,
            own,
            place,
            stage: Stage::Waiting,
            kept,
            made: None,
            value: Val(0),
        })
    }

    /// The UTIL table that the agent made; `None` exactly if it has not joined its tables.
    pub fn into_table(self) -> Option<Table>
        ensures { result ≡ self.made }
    {
        self.made
    }

    /// Takes the best own value at these values, sends the children their values, and ends.
    fn decide(
        &mut self,
        values: &AgentContext,
        parcels: Vec<Parcel>,
    ) -> Result<Vec<Parcel>, NoMemory>
        requires working { self.old.phase ≡ working }
        requires made { is_some self.old.made ≡ true }
        requires within { AreWithin (map (size_of self.old) (separator self.old))
            (map (valued values.now) (separator self.old)) }
        requires range { IsContext values.now }
        ensures own { (self.new.own ≡ self.old.own) × (self.new.place ≡ self.old.place) }
        ensures gives { IfOk result (λ ps.
            GivesDpopStep (decide self.old values.now) self.new parcels.items ps.items) }
    {
        let kept = self.kept.as_slice();
        let best = best_of(self.alloc, &self.own, &self.place, kept, values)?;
        let children = self.place.children.as_slice();
        let told = values_for(
            self.alloc,
            children,
            kept,
            self.own.me,
            best,
            values,
            parcels,
        )?;
        self.value = best;
        self.stage = Stage::Ended;
        Ok(told)
    }

    /// Joins if the tables of all children are kept and the joined table is not too wide. The UTIL
    /// table goes to the parent; the root decides. `known` has the joined table's variables if they
    /// are already known.
    fn join(&mut self, known: Option<Over>, parcels: Vec<Parcel>) -> Result<Vec<Parcel>, NoMemory>
        requires working { self.old.phase ≡ working }
        requires known { IfSome known (IsOver self.old) }
        ensures own { (self.new.own ≡ self.old.own) × (self.new.place ≡ self.old.place) }
        ensures running { IfOk result (λ _. IsRunning self.new) }
        ensures gives { IfOk result (λ ps.
            GivesDpopStep (join self.old) self.new parcels.items ps.items) }
    {
        let kept = self.kept.as_slice();
        let Some(made) = util_of(self.alloc, &self.own, &self.place, kept, known)? else {
            return Ok(parcels);
        };
        let sent = util_for(self.alloc, self.place.path.as_slice(), &made, parcels)?;
        self.made = Some(made);
        if self.place.path.as_slice().last().is_none() {
            return self.decide(&AgentContext::new(self.alloc), sent);
        }
        Ok(sent)
    }

    /// Keeps a child's table and joins, if the table is taken.
    fn take_util(
        &mut self,
        from: VarId,
        scope: &[VarId],
        cells: &CellList,
        parcels: Vec<Parcel>,
    ) -> Result<Vec<Parcel>, NoMemory>
        requires running { IsRunning self.old }
        requires range { AreCells cells.now }
        ensures own { (self.new.own ≡ self.old.own) × (self.new.place ≡ self.old.place) }
        ensures running { IfOk result (λ _. IsRunning self.new) }
        ensures gives { IfOk result (λ ps.
            GivesDpopStep (dpop_message self.old from (Util scope.now cells.now)) self.new
            parcels.items ps.items) }
    {
        let Some(child) = position_of(self.place.children.as_slice(), from) else {
            return Ok(parcels);
        };
        let kept = self.kept.as_slice();
        let over = variables_with(self.alloc, &self.own, &self.place, kept, scope)?;
        let Some(table) = table_of(
            self.alloc,
            &self.own,
            &self.place,
            kept,
            child,
            scope,
            cells,
            over.sizes.as_slice(),
        )?
        else {
            return Ok(parcels);
        };
        self.kept[child] = Some(table);
        self.join(Some(over), parcels)
    }

    /// Whether these values are taken.
    fn takes_values(&self, from: VarId, values: &AgentContext) -> bool
        requires { IsRunning self.now }
        ensures taken { result ≡ takes_values self.now from values.now }
        ensures within { result ≡ true → AreWithin (map (size_of self.now) (separator self.now))
            (map (valued values.now) (separator self.now)) }
    {
        let Some(made) = &self.made else {
            return false;
        };
        if has_ended(self.stage) {
            return false;
        }
        if !is_parent(self.place.path.as_slice(), from) {
            return false;
        }
        are_sized(&self.place, values.pairs()) && values.names_all(&made.scope)
    }

    /// Decides, if the values are taken.
    fn take_values(
        &mut self,
        from: VarId,
        values: &AgentContext,
        parcels: Vec<Parcel>,
    ) -> Result<Vec<Parcel>, NoMemory>
        requires running { IsRunning self.old }
        requires range { IsContext values.now }
        ensures own { (self.new.own ≡ self.old.own) × (self.new.place ≡ self.old.place) }
        ensures running { IfOk result (λ _. IsRunning self.new) }
        ensures gives { IfOk result (λ ps.
            GivesDpopStep (dpop_message self.old from (ValueAll values.now)) self.new
            parcels.items ps.items) }
    {
        if !self.takes_values(from, values) {
            return Ok(parcels);
        }
        self.decide(values, parcels)
    }

    /// Handles one message. A message that is not taken is ignored.
    fn handle(&mut self, letter: &Letter, parcels: Vec<Parcel>) -> Result<Vec<Parcel>, NoMemory>
        requires running { IsRunning self.old }
        ensures own { (self.new.own ≡ self.old.own) × (self.new.place ≡ self.old.place) }
        ensures running { IfOk result (λ _. IsRunning self.new) }
        ensures gives { IfOk result (λ ps.
            GivesDpopStep (dpop_message self.old letter.now.0 letter.now.1) self.new
            parcels.items ps.items) }
    {
        match &letter.message {
            Message::Util { scope, cells } => {
                self.take_util(letter.from, scope.as_slice(), cells, parcels)
            }
            Message::ValueAll { values } => self.take_values(letter.from, values, parcels),
            _ => Ok(parcels),
        }
    }

    /// Handles all messages of a batch, in order. What is sent uses the memory of `parcels`.
    #[tactic(auto, using(crate::proofs::BatchLaws::leads_on, crate::proofs::BatchLaws::led_to))]
    fn handle_all(
        &mut self,
        letters: &[Letter],
        parcels: Vec<Parcel>,
    ) -> Result<Vec<Parcel>, NoMemory>
        requires running { IsRunning self.old }
        requires empty { parcels.items ≡ [] }
        ensures own { (self.new.own ≡ self.old.own) × (self.new.place ≡ self.old.place) }
        ensures viewed { IfOk result (λ _. self.new ≡ (dpop_step self.old letters.now).view) }
        ensures sent { IfOk result (λ ps. ps.items ≡ (dpop_step self.old letters.now).sends) }
    {
        let mut sent = parcels;
        for letter in letters {
            sent = self.handle(letter, sent)?;
        }
        Ok(sent)
    }

    /// The agent fails for good.
    fn fail(&mut self) -> NoMemory
        ensures own { (self.new.own ≡ self.old.own) × (self.new.place ≡ self.old.place) }
        ensures failed { self.new.phase.failed ≡ true }
    {
        self.stage = Stage::Failed;
        NoMemory
    }

    /// The start: an agent without children joins at once. What is sent uses the memory of
    /// `parcels`.
    fn begin(&mut self, parcels: Vec<Parcel>) -> Result<Vec<Parcel>, NoMemory>
        requires { self.old.phase ≡ not_started }
        ensures own { (self.new.own ≡ self.old.own) × (self.new.place ≡ self.old.place) }
        ensures gives { IfOk result (λ ps.
            GivesDpopStep (dpop_start self.old) self.new parcels.items ps.items) }
    {
        self.stage = Stage::Working;
        self.join(None, parcels)
    }
}

impl Machine for DpopAgent {
    ghost meaning = { λ a. DpopKind a };

    fn start(&mut self, out: &mut Outbox) -> Result<(), NoMemory> {
        if matches!(self.stage, Stage::Failed) {
            return Err(NoMemory);
        }
        let lent = mem::replace(out, Outbox::from_vec(Vec::new(self.alloc))).into_vec();
        let Ok(parcels) = self.begin(lent) else {
            return Err(self.fail());
        };
        *out = Outbox::from_vec(parcels);
        Ok(())
    }

    fn react(&mut self, batch: &Batch, out: &mut Outbox) -> Result<(), NoMemory> {
        if matches!(self.stage, Stage::Failed) {
            return Err(NoMemory);
        }
        let lent = mem::replace(out, Outbox::from_vec(Vec::new(self.alloc))).into_vec();
        let Ok(parcels) = self.handle_all(batch.as_slice(), lent) else {
            return Err(self.fail());
        };
        *out = Outbox::from_vec(parcels);
        Ok(())
    }

    fn ended(&self) -> bool {
        matches!(self.stage, Stage::Ended)
    }

    fn value(&self) -> Val {
        self.value
    }

    fn standing(&self) -> Standing {
        Standing {
            lower: 0,
            upper: None,
            threshold: 0,
        }
    }

    fn table(&self) -> Option<&Table> {
        self.made.as_ref()
    }

    fn place(&self) -> Option<&Place> {
        None
    }
}

/// `count` places for tables, all of them empty.
fn empty_places(alloc: Global, count: usize) -> Result<Vec<Option<Table>>, NoMemory>
    ensures { IfOk result (λ places. places.items ≡ replicate count None) }
{
    let mut places = Vec::with_capacity(alloc, count)?;
    for place in 0..count {
        places.push(None)?;
    }
    Ok(places)
}
