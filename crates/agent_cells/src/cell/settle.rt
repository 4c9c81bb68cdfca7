//! Settling the links of a cell.

ghost use Rattle.std.specs.Prelude.{◌≡◌};
ghost use Rattle.fifo_links.specs.Link.{sent_on, taken_from, SameTail, SameHead};
ghost use Rattle.worker_laws.specs.Visits.{IsQuiet};
ghost use Rattle.worker_laws.specs.CellRounds.{IsSettled};
ghost use Rattle.agent_cells.specs.Settled.{TailJoins, HeadJoins, EndsJoin, SettlesTail, SettlesHead, TailIsSettled, HeadIsSettled, EndsAreSettled, HaveBothEnds};
ghost use Rattle.agent_cells.specs.State.{state_of, begun_in, fault_in, tails_in, heads_in, visits_in, IsCell};

use super::Cell;
use crate::sealed::Sealed;
use crate::settling::{settle_between, settle_head_from, settle_tail_to};
use dcop_base::VarId;
use fifo_links::{LinkHead, LinkTail};

impl Cell {
    /// Settles the link from this cell to the other, in one thread: messages move from its backlog
    /// into its ring while there are free slots. Returns how many messages are in the ring; the
    /// other cell then knows of all of them. Nothing else changes. It allocates no memory.
    ///
    /// The other cell is looked for among the neighbours of this cell, at place `near_tail` first,
    /// and this cell among the neighbours of the other, at place `near_head` first. If it is not
    /// there, it is found by binary search.
    pub fn settle_to(&mut self, near_tail: usize, other: &mut Cell, near_head: usize) -> u32
        requires cell { IsCell (λ b. meaning b) self.old }
        requires other_cell { IsCell (λ b. meaning b) other.old }
        requires joined { EndsJoin (tails_in self.old) (state_of (λ b. meaning b) other.old).me (heads_in other.old) (state_of (λ b. meaning b) self.old).me }
        ensures cell { IsCell (λ b. meaning b) self.new }
        ensures other_cell { IsCell (λ b. meaning b) other.new }
        ensures quiet { IsQuiet (state_of (λ b. meaning b) self.old) (state_of (λ b. meaning b) self.new) }
        ensures other_quiet { IsQuiet (state_of (λ b. meaning b) other.old) (state_of (λ b. meaning b) other.new) }
        ensures tails { SettlesTail (tails_in self.old) (state_of (λ b. meaning b) other.old).me (tails_in self.new) }
        ensures heads { SettlesHead (heads_in other.old) (state_of (λ b. meaning b) self.old).me (heads_in other.new) }
        ensures settled { EndsAreSettled (tails_in self.new) (state_of (λ b. meaning b) other.old).me (heads_in other.new) (state_of (λ b. meaning b) self.old).me result }
        ensures waiting { HaveBothEnds (state_of (λ b. meaning b) self.old) (state_of (λ b. meaning b) other.old)
            → IsSettled (state_of (λ b. meaning b) other.old).me (state_of (λ b. meaning b) self.old).me
            (state_of (λ b. meaning b) other.new) (state_of (λ b. meaning b) self.new) }
        ensures own_heads { heads_in self.new ≡ heads_in self.old }
        ensures other_tails { tails_in other.new ≡ tails_in other.old }
        ensures begun { (begun_in self.new ≡ begun_in self.old) × (begun_in other.new ≡ begun_in other.old) }
        ensures fault { (fault_in self.new ≡ fault_in self.old) × (fault_in other.new ≡ fault_in other.old) }
        ensures visits { (visits_in self.new ≡ visits_in self.old) × (visits_in other.new ≡ visits_in other.old) }
    {
        settle_between(
            self.tails.as_mut_slice(),
            other.me,
            near_tail,
            other.heads.as_mut_slice(),
            self.me,
            near_head,
        )
    }

    /// Settles the link from this cell to a neighbour, whose end of the link is given, as
    /// [`Cell::settle_to`] does.
    pub fn settle_tail(&mut self, to: VarId, head: &mut LinkHead<Sealed>) -> u32
        requires cell { IsCell (λ b. meaning b) self.old }
        requires joined { TailJoins (tails_in self.old) to head.old }
        ensures cell { IsCell (λ b. meaning b) self.new }
        ensures quiet { IsQuiet (state_of (λ b. meaning b) self.old) (state_of (λ b. meaning b) self.new) }
        ensures tails { SettlesTail (tails_in self.old) to (tails_in self.new) }
        ensures head { SameHead head.old head.new }
        ensures taken { taken_from head.new ≡ taken_from head.old }
        ensures settled { TailIsSettled (tails_in self.new) to head.new result }
        ensures heads { heads_in self.new ≡ heads_in self.old }
        ensures begun { begun_in self.new ≡ begun_in self.old }
        ensures fault { fault_in self.new ≡ fault_in self.old }
        ensures visits { visits_in self.new ≡ visits_in self.old }
    {
        settle_tail_to(self.tails.as_mut_slice(), to, 0, head)
    }

    /// Settles the link to this cell from a neighbour, whose end of the link is given, as
    /// [`Cell::settle_to`] does.
    pub fn settle_head(&mut self, from: VarId, tail: &mut LinkTail<Sealed>) -> u32
        requires cell { IsCell (λ b. meaning b) self.old }
        requires joined { HeadJoins (heads_in self.old) from tail.old }
        ensures cell { IsCell (λ b. meaning b) self.new }
        ensures quiet { IsQuiet (state_of (λ b. meaning b) self.old) (state_of (λ b. meaning b) self.new) }
        ensures heads { SettlesHead (heads_in self.old) from (heads_in self.new) }
        ensures tail { SameTail tail.old tail.new }
        ensures sent { sent_on tail.new ≡ sent_on tail.old }
        ensures settled { HeadIsSettled (heads_in self.new) from tail.new result }
        ensures tails { tails_in self.new ≡ tails_in self.old }
        ensures begun { begun_in self.new ≡ begun_in self.old }
        ensures fault { fault_in self.new ≡ fault_in self.old }
        ensures visits { visits_in self.new ≡ visits_in self.old }
    {
        settle_head_from(self.heads.as_mut_slice(), from, tail)
    }
}
