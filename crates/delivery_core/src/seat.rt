//! One agent with what it was sent.

ghost use Rattle.std.specs.Prelude.{◌≡◌, OnOk};
ghost use Rattle.std.specs.List.{All, fold};
ghost use Rattle.protocol_steps.specs.Step.{start_of, step_of};
ghost use Rattle.protocol_steps.specs.Machine.{MayStart, MayReact, IsBatch, IsToNeighbour};
ghost use Rattle.letter_queues.specs.Inboxes.{edit_link, with_letter, letters_by, keep_last};
ghost use Rattle.delivery_core.specs.SeatEvents.{seat_after, seat_sends};
ghost use Rattle.delivery_core.specs.Takes.{seat_takes};

use crate::agent::Agent;
use crate::exchange::{Exchange, copy_letters, copy_parcels};
use dcop_base::{NoMemory, Sequence, VarId};
use dcop_edge::Gate;
use letter_queues::Inbox;
use protocol_steps::{Letter, Parcel, Take};
use std::alloc::Global;
use std::marker::Model;
use std::mem;

/// An agent, and what it was sent, by sender.
#[derive(Drop)]
pub(crate) struct Seat {
    agent: Agent,
    inbox: Inbox,
}

impl Model for Seat {
    ghost use Rattle.delivery_core.specs.State.{SeatView};

    ghost Value = { SeatView };

    ghost view = { λ s. record { view = s.agent; inbox = s.inbox } };
}

impl Seat {
    /// An agent with what it was sent.
    pub(crate) fn new(agent: Agent, inbox: Inbox) -> Seat
        ensures { result ≡ record { view = agent; inbox = inbox } }
    {
        Seat { agent, inbox }
    }

    /// The agent.
    pub(crate) fn agent(&self) -> &Agent
        ensures { result.now ≡ self.now.view }
    {
        &self.agent
    }

    /// The agent, without what it was sent.
    pub(crate) fn into_agent(self) -> Agent
        ensures { result ≡ self.view }
    {
        self.agent
    }

    /// What the agent was sent, by sender.
    pub(crate) fn inbox(&self) -> &Inbox
        ensures { result.now ≡ self.now.inbox }
    {
        &self.inbox
    }

    /// Adds a letter to the link of this sender.
    pub(crate) fn add(&mut self, from: VarId, letter: Letter) -> Result<(), NoMemory>
        ensures { OnOk result (self.new
            ≡ record self.old { inbox = edit_link from (with_letter letter) self.old.inbox }) }
    {
        self.inbox.add(from, letter)
    }

    /// Starts the agent, and replaces the content of `parcels` by what it sends.
    pub(crate) fn begin(&mut self, alloc: Global, parcels: &mut Vec<Parcel>) -> Result<(), NoMemory>
        requires { MayStart self.old.view }
        ensures view { OnOk result (self.new ≡ record self.old { view = (start_of self.old.view).view }) }
        ensures sends { OnOk result (parcels.new.items ≡ (start_of self.old.view).sends) }
        ensures receivers { OnOk result (All (IsToNeighbour self.old.view) parcels.new.items) }
    {
        parcels.clear();
        let mut out = Sequence::from_vec(mem::replace(parcels, Vec::new(alloc)));
        self.agent.start(&mut out)?;
        *parcels = out.into_vec();
        Ok(())
    }

    /// Activates the agent once on the letters that these takes name, and replaces the content of
    /// `parcels` by what it sends. `letters` is a buffer for the batch.
    pub(crate) fn react(
        &mut self,
        alloc: Global,
        takes: &[Take],
        letters: &mut Vec<Letter>,
        parcels: &mut Vec<Parcel>,
    ) -> Result<(), NoMemory>
        requires ready { MayReact self.old.view }
        requires batch { IsBatch self.old.view (letters_by self.old.inbox takes.now) }
        ensures after { OnOk result (self.new ≡ seat_after self.old takes.now) }
        ensures sends { OnOk result (parcels.new.items ≡ seat_sends self.old takes.now) }
        ensures receivers { OnOk result (All (IsToNeighbour self.old.view) parcels.new.items) }
    {
        self.inbox.gather(takes, letters)?;
        self.answer(alloc, letters, parcels)
    }

    /// Does what [`Seat::react`] does, and replaces the content of `exchange` by copies of what the
    /// agent takes and sends.
    pub(crate) fn react_telling(
        &mut self,
        alloc: Global,
        takes: &[Take],
        parcels: &mut Vec<Parcel>,
        exchange: &mut Exchange,
    ) -> Result<(), NoMemory>
        requires ready { MayReact self.old.view }
        requires batch { IsBatch self.old.view (letters_by self.old.inbox takes.now) }
        ensures after { OnOk result (self.new ≡ seat_after self.old takes.now) }
        ensures sends { OnOk result (parcels.new.items ≡ seat_sends self.old takes.now) }
        ensures receivers { OnOk result (All (IsToNeighbour self.old.view) parcels.new.items) }
        ensures took { OnOk result (exchange.new.took.items ≡ letters_by self.old.inbox takes.now) }
        ensures sent { OnOk result (exchange.new.sent.items ≡ seat_sends self.old takes.now) }
    {
        let mut letters = Vec::new(alloc);
        self.inbox.gather(takes, &mut letters)?;
        copy_letters(letters.as_slice(), &mut exchange.took)?;
        self.answer(alloc, &mut letters, parcels)?;
        copy_parcels(parcels.as_slice(), &mut exchange.sent)?;
        Ok(())
    }

    /// Activates the agent once on a batch that was removed from its inbox, and replaces the
    /// content of `parcels` by what it sends. `letters` is emptied and keeps its memory.
    fn answer(
        &mut self,
        alloc: Global,
        letters: &mut Vec<Letter>,
        parcels: &mut Vec<Parcel>,
    ) -> Result<(), NoMemory>
        requires ready { MayReact self.old.view }
        requires batch { IsBatch self.old.view letters.old.items }
        ensures after { OnOk result (self.new ≡ record {
          view = (step_of self.old.view letters.old.items).view;
          inbox = fold keep_last self.old.inbox letters.old.items;
        }) }
        ensures sends { OnOk result (parcels.new.items
            ≡ (step_of self.old.view letters.old.items).sends) }
        ensures receivers { OnOk result (All (IsToNeighbour self.old.view) parcels.new.items) }
    {
        let batch = Sequence::from_vec(mem::replace(letters, Vec::new(alloc)));
        parcels.clear();
        let mut out = Sequence::from_vec(mem::replace(parcels, Vec::new(alloc)));
        self.agent.react(&batch, &mut out)?;
        *parcels = out.into_vec();
        *letters = batch.into_vec();
        self.inbox.keep_all(letters)?;
        Ok(())
    }

    /// Replaces the content of `takes` by what the agent takes in its turn: from each sender what
    /// is pending, at most 64 messages. Unless it has ended, the agent passes the gate first.
    pub(crate) fn list_takes<G: Gate>(
        &self,
        gate: &G,
        me: VarId,
        takes: &mut Vec<Take>,
    ) -> Result<(), NoMemory>
        ensures { OnOk result (takes.new.items ≡ seat_takes self.now) }
    {
        if self.agent.ended() {
            takes.clear();
            return Ok(());
        }
        gate.pass(me);
        self.inbox.list_takes(takes)
    }
}
