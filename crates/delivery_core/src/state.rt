//! The network state that one thread plays, and the calls that read it.

ghost use Rattle.std.specs.Prelude.{◌≡◌, ◌<◌, ◌≤◌, length, slice_index_or, MatchOption, IfOk, IfSome, OnOk, Some, None};
ghost use Rattle.std.specs.Option.{option_map};
ghost use Rattle.std.specs.List.{list_all};
ghost use Rattle.dcop_base.specs.Limits.{variable_limit};
ghost use Rattle.protocol_steps.specs.View.{ended_of, value_of, standing_of};
ghost use Rattle.delivery_core.specs.Agents.{IsStartFor, network_of};
ghost use Rattle.delivery_core.specs.State.{SeatView, view_at, context_in, place_in, table_in, last_sent, count_waiting, views_of};
ghost use Rattle.delivery_core.specs.SeatEvents.{core_fault};
ghost use Rattle.delivery_core.specs.Takes.{seat_takes, TakeNothing};
ghost use Rattle.delivery_core.specs.Exchanges.{Exchanges};
ghost use Rattle.delivery_core.specs.Shown.{IsCore, IsSomeCore, Advances, Refuses, CountsWaiting};

use crate::deliver::{act, act_telling, count_of};
use crate::exchange::Exchange;
use crate::lawful::fault_of;
use crate::seat::Seat;
use crate::start::{Start, make, start_all};
use adopt_context::AgentContext;
use dcop_base::{MAX_VARIABLES, NoMemory, Problem, Table, Val, VarId};
use dcop_edge::Gate;
use letter_queues::Arrivals;
use protocol_steps::{Event, EventFault, Letter, Message, Parcel, Standing, Take};
use pseudotree::Place;
use std::alloc::Global;
use std::marker::Model;

/// A network state: the agents, and the messages on each link.
#[derive(Drop)]
pub struct CoreState {
    pub(crate) seats: Vec<Seat>,
    pub(crate) delivered: u64,
    arrivals: Arrivals,
    // A buffer for the batch of a turn.
    letters: Vec<Letter>,
    // A buffer for what is sent in a turn.
    parcels: Vec<Parcel>,
}

impl Model for CoreState {
    ghost use Rattle.delivery_core.specs.State.{CoreView};

    ghost Value = { CoreView };

    ghost view = { λ s. record { seats = s.seats.items; delivered = s.delivered } };

    ghost use Rattle.delivery_core.specs.Takes.{KnowsBusy};

    ghost invariant = { λ s. KnowsBusy s.arrivals s.seats.items };
}

/// Whether all these agents have ended.
fn have_ended(seats: &[Seat]) -> bool
    ensures { result ≡ list_all (λ x. ended_of x.view) seats.now }
{
    seats.iter().all(|seat| seat.agent().ended())
}

impl CoreState {
    /// The state in which all agents of a start have started and nothing has been taken. The tree
    /// of a start must be a pseudotree of the problem, and linked: each variable except the root is
    /// a neighbour of its parent. The requested error must be at most 2^62.
    ///
    /// # Errors
    ///
    /// [`NoMemory`] if memory runs out.
    pub fn start(alloc: Global, problem: &Problem, start: &Start) -> Result<CoreState, NoMemory>
        requires { IsStartFor problem.now start.now }
        ensures core { IfOk result (λ state. IsCore problem.now (network_of problem.now start.now) state) }
        ensures few { IfOk result (λ state. length state.seats ≤ variable_limit) }
    {
        let mut seats = make(alloc, problem, start)?;
        let mut arrivals = Arrivals::new(alloc, seats.len())?;
        let mut parcels = Vec::new(alloc);
        start_all(alloc, seats.as_mut_slice(), &mut arrivals, &mut parcels)?;
        Ok(CoreState {
            seats,
            delivered: 0,
            arrivals,
            letters: Vec::new(alloc),
            parcels,
        })
    }

    /// The value of an agent; 0 until it takes one.
    pub fn value(&self, me: VarId) -> Val
        requires { me < length self.now.seats }
        ensures { option_map value_of (view_at self.now me) ≡ Some result }
    {
        self.seats[me.0 as usize].agent().value()
    }

    /// The lower bound, the upper bound and the threshold of an ADOPT agent; 0, none and 0 for an
    /// agent of another kind.
    pub fn standing(&self, me: VarId) -> Standing
        requires { me < length self.now.seats }
        ensures { option_map standing_of (view_at self.now me) ≡ Some result }
    {
        self.seats[me.0 as usize].agent().standing()
    }

    /// Whether an agent has ended.
    pub fn ended(&self, me: VarId) -> bool
        requires { me < length self.now.seats }
        ensures { option_map ended_of (view_at self.now me) ≡ Some result }
    {
        self.seats[me.0 as usize].agent().ended()
    }

    /// Whether all agents have ended.
    pub fn all_ended(&self) -> bool
        ensures { result ≡ list_all ended_of (views_of self.now.seats) }
    {
        have_ended(self.seats.as_slice())
    }

    /// How many messages were taken, or `u64::MAX` if they are more.
    pub fn deliveries(&self) -> u64
        ensures { result ≡ self.now.delivered }
    {
        self.delivered
    }

    /// The last message that `from` has sent to `to`; `None` exactly if it has sent none.
    pub fn last_sent(&self, from: VarId, to: VarId) -> Option<&Message>
        requires from { from < length self.now.seats }
        requires to { to < length self.now.seats }
        ensures { MatchOption result (last_sent self.now from to ≡ None)
            (λ m. last_sent self.now from to ≡ Some m.now) }
    {
        match self.seats[to.0 as usize].inbox().last_of(from) {
            Some(letter) => Some(&letter.message),
            None => None,
        }
    }

    /// How many messages from `from` wait for `to`: they were sent, and `to` has not taken them. It
    /// is 0 if there is no such agent.
    pub fn waiting(&self, to: VarId, from: VarId) -> u64
        ensures count { result ≡ count_waiting self.now to from }
        ensures network { CountsWaiting self.now to from result }
    {
        match self.seats.get(to.0 as usize) {
            Some(seat) => seat.inbox().count_from(from) as u64,
            None => 0,
        }
    }

    /// The place of a token agent that has ended, without the domain sizes of its path; `None`
    /// exactly if the agent has not ended or is of another kind.
    pub fn place(&self, me: VarId) -> Option<&Place>
        requires { me < length self.now.seats }
        ensures { MatchOption result (place_in (view_at self.now me) ≡ None)
            (λ p. place_in (view_at self.now me) ≡ Some p.now) }
    {
        self.seats[me.0 as usize].agent().place()
    }

    /// The context of an ADOPT agent: what it knows of the values on its path. `None` exactly for
    /// agents of other kinds.
    pub fn context(&self, me: VarId) -> Option<&AgentContext>
        requires { me < length self.now.seats }
        ensures { MatchOption result (context_in (view_at self.now me) ≡ None)
            (λ c. context_in (view_at self.now me) ≡ Some c.now) }
    {
        self.seats[me.0 as usize].agent().context()
    }

    /// The UTIL table that a DPOP agent has made; `None` exactly if the agent has not joined its
    /// tables or is of another kind.
    pub fn table(&self, me: VarId) -> Option<&Table>
        requires { me < length self.now.seats }
        ensures { MatchOption result (table_in (view_at self.now me) ≡ None)
            (λ t. table_in (view_at self.now me) ≡ Some t.now) }
    {
        self.seats[me.0 as usize].agent().table()
    }

    /// The number of agents.
    pub fn count(&self) -> usize
        ensures { result ≡ length self.now.seats }
    {
        self.seats.len()
    }

    /// The first agent that is not below `from` and may take something. Each agent that is passed
    /// over takes nothing.
    pub fn next_busy(&self, from: usize) -> Option<usize>
        ensures within { IfSome result (λ me. (from ≤ me) × (me < length self.now.seats)) }
        ensures passed { MatchOption result (TakeNothing self.now.seats from (length self.now.seats))
            (λ me. TakeNothing self.now.seats from me) }
    {
        self.arrivals.next_busy(from)
    }

    /// Replaces the content of `takes` by what an agent takes in its turn: from each sender what
    /// waits, at most 64 messages; nothing if it has ended. An agent that has not ended and for
    /// which something may wait passes the gate first.
    ///
    /// # Errors
    ///
    /// [`NoMemory`] if memory runs out.
    pub fn list_takes<G: Gate>(
        &mut self,
        gate: &G,
        me: VarId,
        takes: &mut Vec<Take>,
    ) -> Result<(), NoMemory>
        requires { me < length self.old.seats }
        ensures same { self.new ≡ self.old }
        ensures takes { OnOk result ((d : SeatView) →
            takes.new.items ≡ seat_takes (slice_index_or self.old.seats me d)) }
    {
        let agent = me.0 as usize;
        if self.arrivals.is_calm(agent) {
            takes.clear();
            return Ok(());
        }
        self.seats[agent].list_takes(gate, me, takes)?;
        if takes.is_empty() {
            self.arrivals.settle(agent);
        }
        Ok(())
    }

    /// Plays a lawful event, in which an agent makes these takes: it takes, steps and sends. If it
    /// is not known whether the event is lawful, use [`CoreState::happen`].
    ///
    /// # Errors
    ///
    /// [`NoMemory`] if memory runs out. No clause speaks of the state after that.
    pub fn follow(&mut self, alloc: Global, agent: VarId, takes: &[Take]) -> Result<(), NoMemory>
        requires core { IsSomeCore self.old }
        requires lawful { core_fault self.old.seats (record { agent = agent; takes = takes.now }) ≡ None }
        ensures { OnOk result (Advances self.old (record { agent = agent; takes = takes.now }) self.new) }
    {
        act(
            alloc,
            self.seats.as_mut_slice(),
            &mut self.arrivals,
            &mut self.letters,
            &mut self.parcels,
            agent,
            takes,
        )?;
        let taken = count_of(takes);
        self.delivered = self.delivered.saturating_add(taken);
        Ok(())
    }

    /// Plays an event as [`CoreState::happen`] does, and tells what its agent took and sent. If the
    /// event is lawful, this replaces the content of `exchange`.
    ///
    /// # Errors
    ///
    /// [`NoMemory`] if memory runs out. No clause speaks of the state after that.
    pub fn happen_telling(
        &mut self,
        alloc: Global,
        event: &Event,
        exchange: &mut Exchange,
    ) -> Result<Option<EventFault>, NoMemory>
        requires { IsSomeCore self.old }
        ensures plays { IfOk result (λ found. MatchOption found (Advances self.old event.now self.new)
            (λ fault. Refuses self.old event.now fault)) }
        ensures tells { IfOk result (λ found. found ≡ None →
            Exchanges self.old event.now exchange.new.took.items exchange.new.sent.items) }
    {
        if let Some(fault) = fault_of(self.seats.as_slice(), event) {
            return Ok(Some(fault));
        }
        self.follow_telling(alloc, event.agent, event.takes.as_slice(), exchange)?;
        Ok(None)
    }

    /// Plays a lawful event as [`CoreState::follow`] does, and replaces the content of `exchange`
    /// by what its agent took and sent.
    fn follow_telling(
        &mut self,
        alloc: Global,
        agent: VarId,
        takes: &[Take],
        exchange: &mut Exchange,
    ) -> Result<(), NoMemory>
        requires core { IsSomeCore self.old }
        requires lawful { core_fault self.old.seats (record { agent = agent; takes = takes.now }) ≡ None }
        ensures advances { OnOk result (Advances self.old (record { agent = agent; takes = takes.now }) self.new) }
        ensures tells { OnOk result (Exchanges self.old (record { agent = agent; takes = takes.now })
            exchange.new.took.items exchange.new.sent.items) }
    {
        act_telling(
            alloc,
            self.seats.as_mut_slice(),
            &mut self.arrivals,
            agent,
            takes,
            exchange,
        )?;
        let taken = count_of(takes);
        self.delivered = self.delivered.saturating_add(taken);
        Ok(())
    }

    /// Plays one event: its agent takes, steps and sends. Returns `Some` exactly if the event is
    /// not lawful, with its first fault.
    ///
    /// # Errors
    ///
    /// [`NoMemory`] if memory runs out. No clause speaks of the state after that.
    pub fn happen(&mut self, alloc: Global, event: &Event) -> Result<Option<EventFault>, NoMemory>
        requires { IsSomeCore self.old }
        ensures { IfOk result (λ found. MatchOption found (Advances self.old event.now self.new)
            (λ fault. Refuses self.old event.now fault)) }
    {
        if let Some(fault) = fault_of(self.seats.as_slice(), event) {
            return Ok(Some(fault));
        }
        self.follow(alloc, event.agent, event.takes.as_slice())?;
        Ok(None)
    }
}
