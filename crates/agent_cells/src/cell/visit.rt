//! A visit of a cell.

ghost use Rattle.std.specs.Prelude.{◌≡◌, ◌≤◌, ◌+◌, ◌⊎◌, true, false, IfOk, OnOk, IfErr, OnErr, IfSome, Err, None, Some};
ghost use Rattle.dcop_base.specs.Limits.{amount_limit};
ghost use Rattle.protocol_steps.specs.View.{made_of, ended_of};
ghost use Rattle.worker_laws.specs.Visits.{IsVisit};
ghost use Rattle.agent_cells.specs.declared.fault.VisitFault.TheVariants.{StampEnd};
ghost use Rattle.agent_cells.specs.Failed.{HasReachedEnd};
ghost use Rattle.agent_cells.specs.Marked.{StayMarked, LeavesUnmarked};
ghost use Rattle.agent_cells.specs.State.{state_of, begun_in, fault_in, visits_in, IsCell, KeepsLinks};

use super::Cell;
use crate::collect::collect_waiting;
use crate::fault::VisitFault;
use crate::visits::VisitCount;
use dcop_edge::Gate;

impl Cell {
    /// Takes all that it finds on each link, at most 64 messages of each, lets the agent react
    /// once, and sends what the agent sends with the next stamp. It passes the gate first. Returns
    /// how many messages it took. The number is 0 only if no message was known to wait; then
    /// nothing has changed except what the cell knows of its links. It allocates memory if it finds
    /// something.
    ///
    /// # Errors
    ///
    /// [`VisitFault::NoMemory`] if memory runs out. [`VisitFault::StampEnd`] only if something was
    /// taken and the greatest of the cell's stamp and the taken stamps is `CAP`; the agent has then
    /// not reacted and nothing was sent. After a fault the cell has failed, has the journal that it
    /// had, and returns the same fault at every later visit.
    pub fn visit<G: Gate>(&mut self, gate: &G) -> Result<u64, VisitFault>
        requires cell { IsCell (λ b. meaning b) self.old }
        requires begun { begun_in self.old ≡ true }
        requires live { ended_of (state_of (λ b. meaning b) self.old).view ≡ false }
        ensures cell { IsCell (λ b. meaning b) self.new }
        ensures begun { begun_in self.new ≡ true }
        ensures links { KeepsLinks self.old self.new }
        ensures me { (state_of (λ b. meaning b) self.new).me ≡ (state_of (λ b. meaning b) self.old).me }
        ensures origin { made_of (state_of (λ b. meaning b) self.new).view ≡ made_of (state_of (λ b. meaning b) self.old).view }
        ensures ok { IfOk result (λ n. IsVisit (state_of (λ b. meaning b) self.old) n (state_of (λ b. meaning b) self.new)) }
        ensures once { OnOk result (visits_in self.new ≡ visits_in self.old + 1) }
        ensures fine { OnOk result (fault_in self.new ≡ None) }
        ensures bounded { (state_of (λ b. meaning b) self.new).stamp ≤ amount_limit }
        ensures err { IfErr result (λ f. fault_in self.new ≡ Some f) }
        ensures again { IfSome (fault_in self.old) (λ f. (result ≡ Err f) × (self.new ≡ self.old)) }
        ensures noted { OnErr result ((state_of (λ b. meaning b) self.new).journal ≡ (state_of (λ b. meaning b) self.old).journal) }
        ensures end { result ≡ Err StampEnd → (fault_in self.old ≡ Some StampEnd)
            ⊎ HasReachedEnd (state_of (λ b. meaning b) self.old) (state_of (λ b. meaning b) self.new) }
    {
        self.visit_marking(gate, &mut [])
    }

    /// Does what [`Cell::visit`] does, and marks each agent to which it sends something: the mark
    /// at place j belongs to agent j. A mark that is set stays set. Agents without a mark are
    /// passed over.
    pub fn visit_marking<G: Gate>(
        &mut self,
        gate: &G,
        marks: &mut [bool],
    ) -> Result<u64, VisitFault>
        requires cell { IsCell (λ b. meaning b) self.old }
        requires begun { begun_in self.old ≡ true }
        requires live { ended_of (state_of (λ b. meaning b) self.old).view ≡ false }
        ensures cell { IsCell (λ b. meaning b) self.new }
        ensures begun { begun_in self.new ≡ true }
        ensures links { KeepsLinks self.old self.new }
        ensures me { (state_of (λ b. meaning b) self.new).me ≡ (state_of (λ b. meaning b) self.old).me }
        ensures origin { made_of (state_of (λ b. meaning b) self.new).view ≡ made_of (state_of (λ b. meaning b) self.old).view }
        ensures ok { IfOk result (λ n. IsVisit (state_of (λ b. meaning b) self.old) n (state_of (λ b. meaning b) self.new)) }
        ensures once { OnOk result (visits_in self.new ≡ visits_in self.old + 1) }
        ensures fine { OnOk result (fault_in self.new ≡ None) }
        ensures bounded { (state_of (λ b. meaning b) self.new).stamp ≤ amount_limit }
        ensures err { IfErr result (λ f. fault_in self.new ≡ Some f) }
        ensures again { IfSome (fault_in self.old) (λ f. (result ≡ Err f) × (self.new ≡ self.old)) }
        ensures noted { OnErr result ((state_of (λ b. meaning b) self.new).journal ≡ (state_of (λ b. meaning b) self.old).journal) }
        ensures end { result ≡ Err StampEnd → (fault_in self.old ≡ Some StampEnd)
            ⊎ HasReachedEnd (state_of (λ b. meaning b) self.old) (state_of (λ b. meaning b) self.new) }
        ensures stay { StayMarked marks.old marks.new }
        ensures marked { OnOk result (LeavesUnmarked marks.new
            (state_of (λ b. meaning b) self.old).sent (state_of (λ b. meaning b) self.new).sent) }
    {
        gate.pass(self.me);
        if let Some(fault) = self.fault {
            return Err(fault);
        }
        self.visits = VisitCount::more(&self.visits);
        let outcome = self.try_visit(marks);
        if let Err(fault) = outcome {
            self.fault = Some(fault);
        }
        outcome
    }

    /// The visit of a cell that has not failed.
    fn try_visit(&mut self, marks: &mut [bool]) -> Result<u64, VisitFault>
        requires cell { IsCell (λ b. meaning b) self.old }
        requires begun { begun_in self.old ≡ true }
        requires fine { fault_in self.old ≡ None }
        requires live { ended_of (state_of (λ b. meaning b) self.old).view ≡ false }
        ensures links { KeepsLinks self.old self.new }
        ensures me { self.new.me ≡ self.old.me }
        ensures begun { self.new.begun ≡ self.old.begun }
        ensures fault { self.new.fault ≡ self.old.fault }
        ensures visits { self.new.visits ≡ self.old.visits }
        ensures origin { made_of (meaning self.new.machine) ≡ made_of (meaning self.old.machine) }
        ensures ok { IfOk result (λ n. IsVisit (state_of (λ b. meaning b) self.old) n (state_of (λ b. meaning b) self.new)) }
        ensures noted { OnErr result (self.new.journal ≡ self.old.journal) }
        ensures end { result ≡ Err StampEnd → HasReachedEnd (state_of (λ b. meaning b) self.old) (state_of (λ b. meaning b) self.new) }
        ensures stay { StayMarked marks.old marks.new }
        ensures marked { OnOk result (LeavesUnmarked marks.new
            (state_of (λ b. meaning b) self.old).sent (state_of (λ b. meaning b) self.new).sent) }
    {
        let heads = self.heads.as_mut_slice();
        let Some(taken) = collect_waiting(self.alloc, heads)? else {
            return Ok(0);
        };
        let count = taken.letters.len() as u64;
        if count > 0 {
            self.handle(taken, marks)?;
        }
        Ok(count)
    }
}
