//! The start of a cell.

ghost use Rattle.std.specs.Prelude.{◌≡◌, true, false, [], OnOk, OnErr, None, Some};
ghost use Rattle.protocol_steps.specs.View.{made_of};
ghost use Rattle.worker_laws.specs.Visits.{IsStarted};
ghost use Rattle.agent_cells.specs.declared.fault.VisitFault.TheVariants.{NoMemory as no_memory};
ghost use Rattle.agent_cells.specs.Links.{AreSameTails};
ghost use Rattle.agent_cells.specs.State.{state_of, begun_in, fault_in, visits_in, IsSoundCell, IsCell, KeepsLinks};

use super::Cell;
use crate::deliver::deliver;
use crate::fault::VisitFault;
use crate::machine::start_once;
use dcop_base::NoMemory;

impl Cell {
    /// Starts the agent. What it sends carries the stamp 0.
    ///
    /// # Errors
    ///
    /// [`NoMemory`] if memory runs out. The cell has then begun and failed, and each visit returns
    /// [`VisitFault::NoMemory`].
    pub fn begin(&mut self) -> Result<(), NoMemory>
        requires cell { IsCell (λ b. meaning b) self.old }
        requires fresh { begun_in self.old ≡ false }
        ensures cell { IsCell (λ b. meaning b) self.new }
        ensures links { KeepsLinks self.old self.new }
        ensures me { (state_of (λ b. meaning b) self.new).me ≡ (state_of (λ b. meaning b) self.old).me }
        ensures origin { made_of (state_of (λ b. meaning b) self.new).view ≡ made_of (state_of (λ b. meaning b) self.old).view }
        ensures begun { begun_in self.new ≡ true }
        ensures visits { visits_in self.new ≡ visits_in self.old }
        ensures ok { OnOk result (IsStarted (state_of (λ b. meaning b) self.old).view (state_of (λ b. meaning b) self.new)) }
        ensures fine { OnOk result (fault_in self.new ≡ fault_in self.old) }
        ensures err { OnErr result (fault_in self.new ≡ Some no_memory) }
    {
        self.begun = true;
        let outcome = self.try_begin();
        if outcome.is_err() {
            self.fault = Some(VisitFault::NoMemory);
        }
        outcome
    }

    /// Starts the machine, and sends its parcels on the links.
    fn try_begin(&mut self) -> Result<(), NoMemory>
        requires cell { IsSoundCell false self.old.fault (state_of (λ b. meaning b) self.old) }
        ensures tails { AreSameTails self.old.tails.items self.new.tails.items }
        ensures heads { self.new.heads ≡ self.old.heads }
        ensures me { self.new.me ≡ self.old.me }
        ensures begun { self.new.begun ≡ self.old.begun }
        ensures fault { self.new.fault ≡ self.old.fault }
        ensures visits { self.new.visits ≡ self.old.visits }
        ensures origin { made_of (meaning self.new.machine) ≡ made_of (meaning self.old.machine) }
        ensures ok { OnOk result (IsStarted (meaning self.old.machine) (state_of (λ b. meaning b) self.new)) }
    {
        let out = start_once(self.alloc, &mut self.machine)?;
        deliver(self.alloc, self.tails.as_mut_slice(), out, 0)
    }
}
