//! The neighbours of a cell, and what it knows of the links from them.

ghost use Rattle.std.specs.Prelude.{◌≡◌, ◌<◌, ℕ, true, length, slice_index_or, None};
ghost use Rattle.worker_laws.specs.Cells.{peers, known_from};
ghost use Rattle.agent_cells.specs.State.{state_of, fault_in};

use super::Cell;
use crate::collect::know_of_none;
use dcop_base::VarId;

impl Cell {
    /// How many neighbours the agent has.
    pub fn degree(&self) -> usize
        ensures { result ≡ length (peers (state_of (λ b. meaning b) self.now).taken) }
    {
        self.heads.len()
    }

    /// The neighbour at this place, counted from 0, in ascending order.
    pub fn neighbour(&self, place: usize) -> VarId
        requires { place < length (peers (state_of (λ b. meaning b) self.now).taken) }
        ensures { (d : _) → result ≡ slice_index_or (peers (state_of (λ b. meaning b) self.now).taken) place d }
    {
        self.heads[place].0
    }

    /// True only if the cell has not failed and knows of no message that waits. It does not look
    /// for messages.
    pub fn rests(&self) -> bool
        ensures fine { result ≡ true → fault_in self.now ≡ None }
        ensures none { result ≡ true → (j : ℕ) → known_from j (state_of (λ b. meaning b) self.now).known ≡ 0 }
    {
        if self.fault.is_some() {
            return false;
        }
        know_of_none(self.heads.as_slice())
    }
}
