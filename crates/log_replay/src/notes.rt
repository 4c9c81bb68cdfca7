//! Keeping the log of a run while its agents are played.

ghost use Rattle.std.specs.Prelude.{◌≡◌, ◌<◌, ◌≤◌, ◌++◌, ◌∷◌, [], length, replicate, Some, IfOk, OnOk, is_some, option_map};
ghost use Rattle.std.specs.List.{All};
ghost use Rattle.dcop_base.specs.Limits.{count_limit};
ghost use Rattle.log_replay.specs.Queues.{stamp_by};
ghost use Rattle.log_replay.specs.Notes.{NotesView, entered, first_notes, noted, HasHappened, NotesEvent, StartNotes, AreSomeNotes, IsLogBy, MayBeLogBy};

use crate::stamps::Stamps;
use dcop_base::{NoMemory, Problem, VarId};
use delivery_core::CoreState;
use protocol_steps::{Entry, Journal, JournalList, Take, TakeList};
use run_log::{Log, merge};
use std::alloc::Global;
use std::marker::Model;
use std::mem;

/// The stamps of a run up to the current event, and each agent's journal.
#[derive(Drop)]
pub struct Notes {
    stamps: Stamps,
    journals: Vec<Journal>,
}

impl Model for Notes {
    ghost Value = { NotesView };

    ghost view = { λ n. record { stamps = n.stamps; journals = n.journals.items } };
}

/// `count` empty journals.
fn empty_journals(alloc: Global, count: usize) -> Result<Vec<Journal>, NoMemory>
    ensures { IfOk result (λ journals. journals.items ≡ replicate count []) }
{
    let mut journals = Vec::with_capacity(alloc, count)?;
    for _ in 0..count {
        journals.push(Journal::from_vec(Vec::new(alloc)))?;
    }
    Ok(journals)
}

/// Appends an entry to a journal.
fn append(alloc: Global, journal: &mut Journal, entry: Entry) -> Result<(), NoMemory>
    ensures { OnOk result (journal.new ≡ journal.old ++ entry ∷ []) }
{
    let mut entries = mem::replace(journal, Journal::from_vec(Vec::new(alloc))).into_vec();
    entries.push(entry)?;
    *journal = Journal::from_vec(entries);
    Ok(())
}

/// Appends an entry to the journal of an agent.
fn enter(
    alloc: Global,
    journals: &mut [Journal],
    agent: VarId,
    entry: Entry,
) -> Result<(), NoMemory>
    requires { agent < length journals.old }
    ensures { OnOk result (journals.new ≡ entered agent entry journals.old) }
{
    append(alloc, &mut journals[agent.0 as usize], entry)
}

impl Notes {
    /// The notes where all agents of a problem have started.
    fn start(alloc: Global, problem: &Problem, core: &CoreState) -> Result<Notes, NoMemory>
        ensures { IfOk result (λ notes. notes ≡ first_notes problem.now core.now) }
    {
        Ok(Notes {
            stamps: Stamps::start(alloc, problem, core)?,
            journals: empty_journals(alloc, problem.sizes.as_slice().len())?,
        })
    }

    /// Notes an event of this agent with these takes, which has led to this core state.
    fn add(
        &mut self,
        alloc: Global,
        core: &CoreState,
        agent: VarId,
        takes: &[Take],
    ) -> Result<(), NoMemory>
        requires agent { agent < length self.old.stamps.last }
        requires row { agent < length self.old.stamps.rows }
        requires journal { agent < length self.old.journals }
        requires senders { All (λ t. t.from < length self.old.stamps.rows) takes.now }
        requires few { stamp_by self.old.stamps agent takes.now ≤ count_limit }
        ensures { OnOk result (self.new ≡ noted core.now agent takes.now self.old) }
    {
        let stamp = self.stamps.take(agent, takes);
        self.stamps.send(core, agent, stamp)?;
        let entry = Entry {
            stamp,
            takes: TakeList::from_vec(Vec::from_slice(alloc, takes)?),
        };
        enter(alloc, self.journals.as_mut_slice(), agent, entry)?;
        Ok(())
    }
}

/// The notes of a state in which all agents of a problem have just started; `None` exactly if no
/// log is requested.
///
/// # Errors
///
/// [`NoMemory`] if memory runs out.
pub fn notes_if(
    alloc: Global,
    requested: bool,
    problem: &Problem,
    core: &CoreState,
) -> Result<Option<Notes>, NoMemory>
    ensures asked { IfOk result (λ notes. is_some notes ≡ requested) }
    ensures notes { IfOk result (StartNotes problem.now core.now) }
{
    if !requested {
        return Ok(None);
    }
    Ok(Some(Notes::start(alloc, problem, core)?))
}

/// Notes an event of this agent with these takes, if notes are kept.
fn note_in(
    alloc: Global,
    notes: &mut Option<Notes>,
    core: &CoreState,
    agent: VarId,
    takes: &[Take],
) -> Result<(), NoMemory>
    requires agent { (v : NotesView) → notes.old ≡ Some v → agent < length v.stamps.last }
    requires row { (v : NotesView) → notes.old ≡ Some v → agent < length v.stamps.rows }
    requires journal { (v : NotesView) → notes.old ≡ Some v → agent < length v.journals }
    requires senders { (v : NotesView) → notes.old ≡ Some v → All (λ t. t.from < length v.stamps.rows) takes.now }
    requires few { (v : NotesView) → notes.old ≡ Some v → stamp_by v.stamps agent takes.now ≤ count_limit }
    ensures { OnOk result (notes.new ≡ option_map (noted core.now agent takes.now) notes.old) }
{
    if let Some(kept) = notes {
        kept.add(alloc, core, agent, takes)?;
    }
    Ok(())
}

/// If notes are kept, adds to them an event of this agent with these takes, which has led to this
/// core state.
///
/// # Errors
///
/// [`NoMemory`] if memory runs out. No clause speaks of the notes after that.
pub fn note(
    alloc: Global,
    notes: &mut Option<Notes>,
    core: &CoreState,
    agent: VarId,
    takes: &[Take],
) -> Result<(), NoMemory>
    requires { HasHappened agent takes.now core.now notes.old }
    ensures { OnOk result (NotesEvent agent takes.now core.now notes.old notes.new) }
{
    note_in(alloc, notes, core, agent, takes)?;
    Ok(())
}

/// The log of the run whose notes these are.
fn merged(alloc: Global, notes: Notes) -> Result<Log, NoMemory>
    requires { AreSomeNotes (Some notes) }
    ensures { IfOk result (IsLogBy notes) }
{
    let Notes {
        stamps: _,
        journals,
    } = notes;
    let journals = JournalList::from_vec(journals);
    merge(alloc, &journals)
}

/// The log of a run, ordered by stamp and then by agent; `None` exactly if no notes were kept.
///
/// # Errors
///
/// [`NoMemory`] if memory runs out.
pub fn log_of(alloc: Global, notes: Option<Notes>) -> Result<Option<Log>, NoMemory>
    requires { AreSomeNotes notes }
    ensures asked { IfOk result (λ log. is_some log ≡ is_some notes) }
    ensures log { IfOk result (MayBeLogBy notes) }
{
    match notes {
        Some(notes) => Ok(Some(merged(alloc, notes)?)),
        None => Ok(None),
    }
}
