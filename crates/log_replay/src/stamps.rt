//! The stamps of a run up to the current event.

ghost use Rattle.std.specs.Prelude.{◌≡◌, ◌<◌, ◌≤◌, List, ◌∷◌, length, map, IfOk, OnOk, max};
ghost use Rattle.protocol_steps.specs.declared.event.Take.{Take as TakeRecord};
ghost use Rattle.std.specs.List.{All, fold, slice_set, range_with_len};
ghost use Rattle.dcop_base.specs.Limits.{count_limit};
ghost use Rattle.log_replay.specs.Queues.{row_at, take_off, greatest_by, stamp_by, stamps_taken, filled, stamps_sent, first_row, first_stamps};

use crate::row::Row;
use dcop_base::{MAX_VARIABLES, NoMemory, Problem, VarId, acquaintance};
use delivery_core::CoreState;
use protocol_steps::Take;
use std::alloc::Global;
use std::marker::Model;

/// Each agent's last stamp, and the stamps of its messages that wait.
#[derive(Drop)]
pub(crate) struct Stamps {
    last: Vec<u64>,
    rows: Vec<Row>,
}

impl Model for Stamps {
    ghost use Rattle.log_replay.specs.Queues.{StampsView};

    ghost Value = { StampsView };

    ghost view = { λ s. record { last = s.last.items; rows = s.rows.items } };
}

/// The queues of an agent after its start: the messages that it has sent wait with stamp 0.
fn first_row(alloc: Global, problem: &Problem, core: &CoreState, me: VarId) -> Result<Row, NoMemory>
    requires { me < length problem.now.sizes }
    ensures { IfOk result (λ row. row ≡ first_row problem.now core.now me) }
{
    let own = acquaintance(alloc, problem, me)?;
    let mut row = Row::new(alloc, own.neighbours.as_slice())?;
    row.fill(core, me, 0)?;
    Ok(row)
}

/// The queues of all agents after their start: the messages that they have sent wait with stamp 0.
fn first_rows(alloc: Global, problem: &Problem, core: &CoreState) -> Result<Vec<Row>, NoMemory>
    ensures { IfOk result (λ rows. rows.items
        ≡ map (first_row problem.now core.now) (range_with_len 0 (length problem.now.sizes))) }
{
    let mut rows = Vec::new(alloc);
    for me in 0..problem.sizes.as_slice().len() {
        rows.push(first_row(alloc, problem, core, VarId(me as u32))?)?;
    }
    Ok(rows)
}

/// Removes the stamps of a take of this agent, and returns the greatest of them.
fn take_one(rows: &mut [Row], agent: VarId, next: Take) -> u64
    requires { next.from < length rows.old }
    ensures greatest { (later : List TakeRecord) → max result (greatest_by agent rows.new later) ≡ greatest_by agent rows.old (next ∷ later) }
    ensures rest { rows.new ≡ take_off agent rows.old next }
{
    rows[next.from.0 as usize].take_off(agent, next.count)
}

/// Removes the stamps of all takes of this agent, and returns the greatest of them.
fn take_all(rows: &mut [Row], agent: VarId, takes: &[Take]) -> u64
    requires { All (λ t. t.from < length rows.old) takes.now }
    ensures greatest { result ≡ greatest_by agent rows.old takes.now }
    ensures rest { rows.new ≡ fold (take_off agent) rows.old takes.now }
{
    let mut greatest: u64 = 0;
    for next in takes {
        greatest = greatest.max(take_one(rows, agent, *next));
    }
    greatest
}

/// Adds this stamp for the messages that this agent has sent.
fn send_from(rows: &mut [Row], core: &CoreState, agent: VarId, stamp: u64) -> Result<(), NoMemory>
    requires { agent < length rows.old }
    ensures { OnOk result (rows.new
        ≡ slice_set rows.old agent (map (filled core.now agent stamp) (row_at rows.old agent))) }
{
    rows[agent.0 as usize].fill(core, agent, stamp)
}

impl Stamps {
    /// The stamps after all agents of a problem have started, if nothing has been taken.
    pub(crate) fn start(
        alloc: Global,
        problem: &Problem,
        core: &CoreState,
    ) -> Result<Stamps, NoMemory>
        ensures { IfOk result (λ stamps. stamps ≡ first_stamps problem.now core.now) }
    {
        Ok(Stamps {
            last: vec![in alloc; 0; problem.sizes.as_slice().len()]?,
            rows: first_rows(alloc, problem, core)?,
        })
    }

    /// Removes the stamps of these takes of an agent, and returns the right stamp of the event with
    /// these takes.
    pub(crate) fn take(&mut self, agent: VarId, takes: &[Take]) -> u64
        requires agent { agent < length self.old.last }
        requires senders { All (λ t. t.from < length self.old.rows) takes.now }
        requires few { stamp_by self.old agent takes.now ≤ count_limit }
        ensures right { result ≡ stamp_by self.old agent takes.now }
        ensures rest { self.new ≡ stamps_taken agent takes.now self.old }
    {
        let greatest = take_all(self.rows.as_mut_slice(), agent, takes);
        self.last[agent.0 as usize].max(greatest) + 1
    }

    /// Adds this stamp for the messages that an agent has sent in an event, as the core state has
    /// them.
    pub(crate) fn send(
        &mut self,
        core: &CoreState,
        agent: VarId,
        stamp: u64,
    ) -> Result<(), NoMemory>
        requires agent { agent < length self.old.last }
        requires row { agent < length self.old.rows }
        ensures { OnOk result (self.new ≡ stamps_sent core.now agent stamp self.old) }
    {
        self.last[agent.0 as usize] = stamp;
        send_from(self.rows.as_mut_slice(), core, agent, stamp)
    }
}
