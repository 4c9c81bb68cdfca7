//! What a cell does with what it took.

ghost use Rattle.std.specs.Prelude.{◌≡◌, ◌≤◌, ◌∷◌, [], ◌++◌, OnOk, OnErr, Err};
ghost use Rattle.std.specs.List.Sorted.{IsStrictlyIncreasing};
ghost use Rattle.dcop_base.specs.Limits.{amount_limit};
ghost use Rattle.protocol_steps.specs.View.{made_of};
ghost use Rattle.protocol_steps.specs.Machine.{MayReact, IsBatch};
ghost use Rattle.worker_laws.specs.Cells.{peers};
ghost use Rattle.agent_cells.specs.declared.fault.VisitFault.TheVariants.{StampEnd};
ghost use Rattle.agent_cells.specs.Links.{lanes_sent, AreSameTails};
ghost use Rattle.agent_cells.specs.Handled.{IsHandled, IsAtEnd};
ghost use Rattle.agent_cells.specs.Marked.{StayMarked, LeavesUnmarked};
ghost use Rattle.agent_cells.specs.State.{state_of};

use super::Cell;
use crate::collect::Taken;
use crate::deliver::deliver;
use crate::fault::VisitFault;
use crate::machine::react_once;
use crate::marks::mark_receivers;
use dcop_base::{CAP, NoMemory};
use protocol_steps::{Batch, Entry, Journal, TakeList};
use std::alloc::Global;
use std::mem;

/// Appends an entry to a journal. If memory runs out, the journal is as it was.
fn note(alloc: Global, journal: &mut Journal, entry: Entry) -> Result<(), NoMemory>
    ensures noted { OnOk result (journal.new ≡ journal.old ++ entry ∷ []) }
    ensures kept { OnErr result (journal.new ≡ journal.old) }
{
    let mut entries = mem::replace(journal, Journal::from_vec(Vec::new(alloc))).into_vec();
    let noted = entries.push(entry);
    *journal = Journal::from_vec(entries);
    noted?;
    Ok(())
}

impl Cell {
    /// Activates the machine once on what was taken, and marks each agent to which the machine
    /// sends something.
    pub(super) fn handle(&mut self, taken: Taken, marks: &mut [bool]) -> Result<(), VisitFault>
        requires ready { MayReact (meaning self.old.machine) }
        requires batch { IsBatch (meaning self.old.machine) taken.letters.items }
        requires ascend { IsStrictlyIncreasing (peers (lanes_sent self.old.tails.items)) }
        requires bounded { taken.greatest ≤ amount_limit }
        ensures tails { AreSameTails self.old.tails.items self.new.tails.items }
        ensures heads { self.new.heads ≡ self.old.heads }
        ensures me { self.new.me ≡ self.old.me }
        ensures begun { self.new.begun ≡ self.old.begun }
        ensures fault { self.new.fault ≡ self.old.fault }
        ensures visits { self.new.visits ≡ self.old.visits }
        ensures origin { made_of (meaning self.new.machine) ≡ made_of (meaning self.old.machine) }
        ensures ok { OnOk result (IsHandled (state_of (λ b. meaning b) self.old)
            taken.letters.items taken.takes.items taken.greatest (state_of (λ b. meaning b) self.new)) }
        ensures noted { OnErr result (self.new.journal ≡ self.old.journal) }
        ensures end { result ≡ Err StampEnd → IsAtEnd (state_of (λ b. meaning b) self.old)
            taken.greatest (state_of (λ b. meaning b) self.new) }
        ensures stay { StayMarked marks.old marks.new }
        ensures marked { OnOk result (LeavesUnmarked marks.new (lanes_sent self.old.tails.items) (lanes_sent self.new.tails.items)) }
    {
        let last = self.stamp.max(taken.greatest);
        if last == CAP {
            return Err(VisitFault::StampEnd);
        }
        let batch = Batch::from_vec(taken.letters);
        let out = react_once(self.alloc, &mut self.machine, &batch)?;
        mark_receivers(marks, &out);
        self.stamp = last + 1;
        deliver(self.alloc, self.tails.as_mut_slice(), out, self.stamp)?;
        let entry = Entry {
            stamp: self.stamp,
            takes: TakeList::from_vec(taken.takes),
        };
        note(self.alloc, &mut self.journal, entry)?;
        Ok(())
    }
}
