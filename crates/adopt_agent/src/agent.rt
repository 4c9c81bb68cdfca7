//! The ADOPT agent.

ghost use Rattle.std.specs.Prelude.{◌≡◌, ℕ, ◌<◌, ◌≤◌, true, [], ◌↔◌, IfOk, IsErr, OnOk, OnErr, MatchOption, Some, None, is_some};
ghost use Rattle.std.specs.List.{All, Contains};
ghost use Rattle.dcop_base.specs.Limits.{amount_limit};
ghost use Rattle.adopt_context.specs.Context.{Context, put, value_in};
ghost use Rattle.protocol_steps.specs.Agent.{not_started};
ghost use Rattle.protocol_steps.specs.Knowledge.{IsKnowledge};
ghost use Rattle.protocol_steps.specs.Placing.{IsPlaceFor};
ghost use Rattle.protocol_steps.specs.Ranges.{IsBound};
ghost use Rattle.protocol_steps.specs.Adopt.{new_adopt};
ghost use Rattle.protocol_steps.specs.AdoptBounds.{at_context, best_lower, best_upper, lower_bound, lower_of, restore, upper_bound};
ghost use Rattle.protocol_steps.specs.AdoptRange.{fits, in_range};
ghost use Rattle.protocol_steps.specs.AdoptStep.{adopt_start, adopt_step, allotted, back_track, choose, closed, may_end, settle, to_allot};
ghost use Rattle.protocol_steps.specs.View.{AdoptKind, made_of};
ghost use Rattle.adopt_agent.specs.Stage.{working};
ghost use Rattle.adopt_agent.specs.Deed.{GivesAdoptStep, IsSameAgent};

use crate::best::Best;
use crate::choose;
use crate::costs::{add_known, are_same, copy_of, higher_of, renew, set_costs};
use crate::exchange::{exchange, set_shares};
use crate::stage::Stage;
use adopt_bounds::Bounds;
use adopt_context::AgentContext;
use dcop_base::{NoMemory, Private, Table, Val, VarId, VarList};
use protocol_steps::{Batch, Letter, Machine, Outbox, Parcel, Standing};
use pseudotree::Place;
use std::alloc::Global;
use std::marker::Model;
use std::mem;

/// An ADOPT agent: its part in the search with bounds. Contracts see its view.
///
/// Besides what the view holds, it keeps what follows from that: the higher neighbours, whether all
/// of them are known, the costs of the own values, and the least bounds.
#[derive(Debug, Drop)]
pub struct AdoptAgent {
    pub(crate) alloc: Global,
    /// What it knows of the problem.
    pub(crate) own: Private,
    pub(crate) place: Place,
    /// The higher neighbours: those that are in its path.
    pub(crate) higher: VarList,
    /// How much more than the optimum the root's solution may cost.
    pub(crate) error: u64,
    pub(crate) stage: Stage,
    /// What it knows of the values of its path.
    pub(crate) known: AgentContext,
    /// The cost of each own value by the tables that count.
    pub(crate) costs: Vec<u64>,
    /// Whether all higher neighbours are known.
    pub(crate) knows_higher: bool,
    pub(crate) bounds: Bounds,
    /// The least bounds of the own values.
    pub(crate) best: Best,
    /// A buffer for what some tables add to the costs.
    pub(crate) shares: Vec<u64>,
    pub(crate) value: Val,
    pub(crate) threshold: u64,
    /// The last threshold received, which TERMINATE applies.
    pub(crate) last_received: u64,
    /// Whether TERMINATE was taken.
    pub(crate) told_to_end: bool,
}

impl Model for AdoptAgent {
    ghost use Rattle.protocol_steps.specs.Adopt.{AdoptView};
    ghost use Rattle.adopt_agent.specs.Stage.{view_at};
    ghost use Rattle.adopt_agent.specs.Sound.{IsSound};

    ghost Value = { AdoptView };

    ghost view = { λ a. view_at a.own a.place a.error a.stage a.known a.value a.threshold a.last_received
        a.told_to_end a.bounds.rows };

    ghost invariant = { λ a. IsSound a.own a.place a.higher a.error a.known a.costs.items a.knows_higher a.bounds
        a.best a.value a.threshold a.last_received };
}

impl AdoptAgent {
    /// The agent that knows this part of a problem, with this place in a tree and this error,
    /// before its start.
    ///
    /// # Errors
    ///
    /// [`NoMemory`] if memory runs out. The arguments are dropped in that case.
    pub fn new(
        alloc: Global,
        own: Private,
        place: Place,
        error: u64,
    ) -> Result<AdoptAgent, NoMemory>
        requires known { IsKnowledge own }
        requires placed { IsPlaceFor own place }
        requires error { error ≤ amount_limit }
        ensures { IfOk result (λ agent. agent ≡ new_adopt own place error) }
    {
        let bounds = Bounds::new(alloc, own.size, copy_of(alloc, place.children.as_slice())?)?;
        let known = AgentContext::new(alloc);
        let mut costs = vec![in alloc; 0; usize::from(own.size)]?;
        set_costs(costs.as_mut_slice(), &own, &place, &known);
        let higher = higher_of(alloc, own.neighbours.as_slice(), place.path.as_slice())?;
        let knows_higher = known.names_all(&higher);
        let best = choose::best_of(costs.as_slice(), knows_higher, &bounds);
        Ok(AdoptAgent {
            alloc,
            own,
            place,
            higher,
            error,
            stage: Stage::Waiting,
            known,
            costs,
            knows_higher,
            bounds,
            best,
            shares: Vec::new(alloc),
            value: Val(0),
            threshold: 0,
            last_received: 0,
            told_to_end: false,
        })
    }

    /// What the agent knows of the values of its path: its context.
    pub fn context(&self) -> &AgentContext
        ensures { result.now ≡ self.now.known }
    {
        &self.known
    }

    /// The lowest value with the least LB(d).
    pub(crate) fn best_lower(&self) -> Val
        ensures best { result ≡ best_lower self.now }
        ensures within { result < self.now.own.size }
    {
        self.best.lower_value
    }

    /// The lowest value with the least UB(d).
    pub(crate) fn best_upper(&self) -> Val
        ensures best { result ≡ best_upper self.now }
        ensures within { result < self.now.own.size }
    {
        self.best.upper_value
    }

    /// LB: the least LB(d).
    pub(crate) fn lower_bound(&self) -> u64
        ensures bound { result ≡ lower_bound self.now }
        ensures within { result ≤ amount_limit }
    {
        self.best.lower
    }

    /// UB: the least UB(d), if there is one.
    pub(crate) fn upper_bound(&self) -> Option<u64>
        ensures bound { result ≡ upper_bound self.now }
        ensures within { IsBound result }
    {
        self.best.upper
    }

    /// LB(d) of the agent's value.
    fn own_lower(&self) -> u64
        ensures { result ≡ lower_of self.now self.now.value }
    {
        choose::lower_of(self.costs.as_slice(), &self.bounds, self.value)
    }

    /// Moves the threshold between the bounds.
    pub(crate) fn restore(&mut self)
        ensures { self.new ≡ restore self.old }
    {
        let lower = self.lower_bound();
        let upper = self.upper_bound();
        let is_root = self.place.path.as_slice().is_empty();
        let least = choose::raised(is_root, self.threshold, lower, self.error);
        self.threshold = choose::lower_to(least, upper);
    }

    /// Replaces what is known, and resets the entries whose context is not part of it.
    fn rest_on(&mut self, known: AgentContext)
        requires { fits self.old known ≡ true }
        ensures { self.new ≡ at_context self.old known }
    {
        self.knows_higher = renew(
            self.costs.as_mut_slice(),
            self.knows_higher,
            &self.own,
            &self.place,
            &self.higher,
            &self.known,
            &known,
        );
        self.bounds.reset(&known);
        self.known = known;
        self.best = choose::best_of(self.costs.as_slice(), self.knows_higher, &self.bounds);
    }

    /// Adds the value of a variable that was not known, and restores. What entries depend on is
    /// still known, so none is reset.
    pub(crate) fn know_more(&mut self, var: VarId, value: Val) -> Result<(), NoMemory>
        requires unnamed { value_in self.old.known var ≡ None }
        requires range { in_range self.old var value ≡ true }
        ensures same { IsSameAgent self.old self.new }
        ensures known { OnOk result
            (self.new ≡ restore (at_context self.old (put self.old.known var value))) }
    {
        self.known.set(var, value)?;
        add_known(
            self.costs.as_mut_slice(),
            &self.own,
            &self.place,
            &self.known,
            var,
        );
        self.knows_higher = self.known.names_all(&self.higher);
        self.best = choose::best_of(self.costs.as_slice(), self.knows_higher, &self.bounds);
        self.restore();
        Ok(())
    }

    /// Replaces the value of a variable that was known, and restores.
    pub(crate) fn know_other(&mut self, var: VarId, value: Val) -> Result<(), NoMemory>
        requires named { is_some (value_in self.old.known var) ≡ true }
        requires range { in_range self.old var value ≡ true }
        ensures same { IsSameAgent self.old self.new }
        ensures known { OnOk result
            (self.new ≡ restore (at_context self.old (put self.old.known var value))) }
    {
        let mut shares = mem::replace(&mut self.shares, Vec::new(self.alloc));
        shares.resize(usize::from(self.own.size), 0)?;
        set_shares(
            shares.as_mut_slice(),
            &self.own,
            &self.place,
            &self.known,
            var,
        );
        self.known.set(var, value)?;
        exchange(
            self.costs.as_mut_slice(),
            shares.as_slice(),
            &self.own,
            &self.place,
            &self.known,
            var,
        );
        self.shares = shares;
        self.bounds.reset(&self.known);
        self.best = choose::best_of(self.costs.as_slice(), self.knows_higher, &self.bounds);
        self.restore();
        Ok(())
    }

    /// Replaces what is known, and restores. If it is the same as before, no entry is reset.
    pub(crate) fn move_to(&mut self, known: AgentContext)
        requires { fits self.old known ≡ true }
        ensures { self.new ≡ restore (at_context self.old known) }
    {
        if are_same(self.known.pairs(), known.pairs()) {
            self.restore();
            return;
        }
        self.rest_on(known);
        self.restore();
    }

    /// Changes the value if it must.
    fn choose(&mut self)
        ensures { self.new ≡ choose self.old }
    {
        if choose::is_value(self.upper_bound(), self.threshold) {
            self.value = self.best_upper();
        } else if self.threshold < self.own_lower() {
            self.value = self.best_lower();
        }
    }

    /// What is to be allotted: the threshold minus the cost of the value, and no more than the sum
    /// of the children's upper bounds.
    fn to_allot(&self) -> u64
        ensures goal { result ≡ to_allot self.now }
        ensures within { result ≤ amount_limit }
    {
        let value = self.value;
        let cost = self.costs[usize::from(value.0)];
        let left = self.threshold.saturating_sub(cost);
        choose::lower_to(left, self.bounds.upper_sum_of(value))
    }

    /// Allots the threshold to the children.
    fn allot(&mut self)
        ensures { self.new ≡ allotted self.old }
    {
        let goal = self.to_allot();
        self.bounds.allot(self.value, goal);
    }

    /// Whether the agent may end.
    fn may_end(&self) -> bool
        ensures { result ≡ may_end self.now }
    {
        if !self.told_to_end && !self.place.path.as_slice().is_empty() {
            return false;
        }
        choose::is_value(self.upper_bound(), self.threshold)
    }

    /// Ends if it may.
    fn settle(&mut self)
        requires { self.old.phase ≡ working }
        ensures { self.new ≡ settle self.old }
    {
        if self.may_end() {
            self.stage = Stage::Ended;
        }
    }

    /// The end of an activation: the value, the shares of the children, and whether the agent ends.
    fn close(&mut self)
        requires { self.old.phase ≡ working }
        ensures { self.new ≡ closed self.old }
    {
        self.restore();
        self.choose();
        self.allot();
        self.settle();
    }

    /// backTrack: the end of an activation, with the messages to the neighbours. They use the memory
    /// of `lent`, which must be empty.
    fn back_track(&mut self, lent: Vec<Parcel>) -> Result<Vec<Parcel>, NoMemory>
        requires started { self.old.phase ≡ working }
        requires empty { lent.items ≡ [] }
        ensures made { made_of (AdoptKind self.new) ≡ made_of (AdoptKind self.old) }
        ensures gives { IfOk result (λ ps. GivesAdoptStep (back_track self.old) self.new ps.items) }
    {
        self.close();
        self.tell_all(lent)
    }

    /// Handles all messages of a batch, in order, and then ends the activation. What is sent uses the
    /// memory of `lent`, which must be empty.
    fn handle_all(&mut self, letters: &[Letter], lent: Vec<Parcel>) -> Result<Vec<Parcel>, NoMemory>
        requires started { self.old.phase ≡ working }
        requires empty { lent.items ≡ [] }
        ensures made { made_of (AdoptKind self.new) ≡ made_of (AdoptKind self.old) }
        ensures gives { IfOk result (λ ps. GivesAdoptStep (adopt_step self.old letters.now) self.new ps.items) }
    {
        for letter in letters {
            self.handle(letter)?;
        }
        self.back_track(lent)
    }

    /// The start: the agent takes the lowest value with the least LB(d). What is sent uses the memory
    /// of `lent`, which must be empty.
    fn begin(&mut self, lent: Vec<Parcel>) -> Result<Vec<Parcel>, NoMemory>
        requires waiting { self.old.phase ≡ not_started }
        requires empty { lent.items ≡ [] }
        ensures made { made_of (AdoptKind self.new) ≡ made_of (AdoptKind self.old) }
        ensures gives { IfOk result (λ ps. GivesAdoptStep (adopt_start self.old) self.new ps.items) }
    {
        self.value = self.best_lower();
        self.stage = Stage::Working;
        self.back_track(lent)
    }

    /// The agent fails for good.
    fn fail(&mut self) -> NoMemory
        ensures made { made_of (AdoptKind self.new) ≡ made_of (AdoptKind self.old) }
        ensures failed { self.new.phase.failed ≡ true }
    {
        self.stage = Stage::Failed;
        NoMemory
    }
}

impl Machine for AdoptAgent {
    ghost meaning = { λ a. AdoptKind a };

    fn start(&mut self, out: &mut Outbox) -> Result<(), NoMemory> {
        if matches!(self.stage, Stage::Failed) {
            return Err(NoMemory);
        }
        let lent = mem::replace(out, Outbox::from_vec(Vec::new(self.alloc))).into_vec();
        let Ok(parcels) = self.begin(lent) else {
            return Err(self.fail());
        };
        *out = Outbox::from_vec(parcels);
        Ok(())
    }

    fn react(&mut self, batch: &Batch, out: &mut Outbox) -> Result<(), NoMemory> {
        if matches!(self.stage, Stage::Failed) {
            return Err(NoMemory);
        }
        let lent = mem::replace(out, Outbox::from_vec(Vec::new(self.alloc))).into_vec();
        let Ok(parcels) = self.handle_all(batch.as_slice(), lent) else {
            return Err(self.fail());
        };
        *out = Outbox::from_vec(parcels);
        Ok(())
    }

    fn ended(&self) -> bool {
        self.has_ended()
    }

    fn value(&self) -> Val {
        self.value
    }

    fn standing(&self) -> Standing {
        Standing {
            lower: self.lower_bound(),
            upper: self.upper_bound(),
            threshold: self.threshold,
        }
    }

    fn table(&self) -> Option<&Table> {
        None
    }

    fn place(&self) -> Option<&Place> {
        None
    }
}
