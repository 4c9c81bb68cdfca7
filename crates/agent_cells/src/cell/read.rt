//! What a cell shows of its agent.

ghost use Rattle.std.specs.Prelude.{◌≡◌, MatchOption, Some, None};
ghost use Rattle.protocol_steps.specs.View.{ended_of, value_of, standing_of, table_of, place_of};
ghost use Rattle.agent_cells.specs.State.{state_of};

use super::Cell;
use dcop_base::{Table, Val, VarId};
use protocol_steps::{Journal, Standing};
use pseudotree::Place;

impl Cell {
    /// The agent's number.
    pub fn agent(&self) -> VarId
        ensures { result ≡ (state_of (λ b. meaning b) self.now).me }
    {
        self.me
    }

    /// Whether the agent has ended.
    pub fn ended(&self) -> bool
        ensures { result ≡ ended_of (state_of (λ b. meaning b) self.now).view }
    {
        self.machine.ended()
    }

    /// The agent's value; 0 until it takes one.
    pub fn value(&self) -> Val
        ensures { result ≡ value_of (state_of (λ b. meaning b) self.now).view }
    {
        self.machine.value()
    }

    /// The lower bound, the upper bound and the threshold of an ADOPT agent; 0, none and 0 for an
    /// agent of another kind.
    pub fn standing(&self) -> Standing
        ensures { result ≡ standing_of (state_of (λ b. meaning b) self.now).view }
    {
        self.machine.standing()
    }

    /// The UTIL table that a DPOP agent has made; `None` exactly if the agent has not joined its
    /// tables or is of another kind.
    pub fn table(&self) -> Option<&Table>
        ensures { MatchOption result (table_of (state_of (λ b. meaning b) self.now).view ≡ None)
            (λ t. table_of (state_of (λ b. meaning b) self.now).view ≡ Some t.now) }
    {
        self.machine.table()
    }

    /// The place of a token agent that has ended, without the domain sizes of its path; `None`
    /// exactly if the agent has not ended or is of another kind.
    pub fn place(&self) -> Option<&Place>
        ensures { MatchOption result (place_of (state_of (λ b. meaning b) self.now).view ≡ None)
            (λ p. place_of (state_of (λ b. meaning b) self.now).view ≡ Some p.now) }
    {
        self.machine.place()
    }

    /// The journal of the agent: an entry for each of its steps, in order. A visit that failed has
    /// no entry, even if the agent made its step.
    pub fn journal(&self) -> &Journal
        ensures { result.now ≡ (state_of (λ b. meaning b) self.now).journal }
    {
        &self.journal
    }
}
