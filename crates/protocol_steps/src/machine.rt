//! Agents.

ghost use Rattle.std.specs.Prelude.{◌≡◌, true, [], ◌↔◌, OnOk, OnErr, IsErr, MatchOption, Some, None};
ghost use Rattle.std.specs.List.{All};
ghost use Rattle.protocol_steps.specs.View.{View, made_of, failed_of, ended_of, value_of, standing_of, table_of, place_of};
ghost use Rattle.protocol_steps.specs.Machine.{MayStart, MayReact, IsBatch, IsStart, IsStep, HasFailed, IsToNeighbour};

use crate::letter::{Batch, Outbox};
use crate::standing::Standing;
use dcop_base::{NoMemory, Table, Val};
use pseudotree::Place;

/// An agent. Its meaning is its view: what it was made from, and its present state.
///
/// After [`NoMemory`] an agent has failed. Each later `start` and `react` returns [`NoMemory`] too,
/// and the parcels that are then in `out` must not be sent.
pub trait Machine: Drop {
    ghost meaning: { Self → View };

    /// Starts the agent. Puts what it sends into `out`.
    ///
    /// # Errors
    ///
    /// [`NoMemory`] if memory runs out.
    fn start(&mut self, out: &mut Outbox) -> Result<(), NoMemory>
        requires ready { MayStart (meaning self.old) }
        requires empty { out.old ≡ [] }
        ensures ok { OnOk result (IsStart (meaning self.old) (meaning self.new) out.new) }
        ensures err { OnErr result (HasFailed (meaning self.new)) }
        ensures origin { made_of (meaning self.new) ≡ made_of (meaning self.old) }
        ensures receivers { All (IsToNeighbour (meaning self.old)) out.new }
        ensures again { failed_of (meaning self.old) ≡ true → IsErr result };

    /// One activation on a whole batch. Puts what the agent sends into `out`.
    ///
    /// # Errors
    ///
    /// [`NoMemory`] if memory runs out.
    fn react(&mut self, batch: &Batch, out: &mut Outbox) -> Result<(), NoMemory>
        requires ready { MayReact (meaning self.old) }
        requires empty { out.old ≡ [] }
        requires batch { IsBatch (meaning self.old) batch.now }
        ensures ok { OnOk result (IsStep (meaning self.old) batch.now (meaning self.new) out.new) }
        ensures err { OnErr result (HasFailed (meaning self.new)) }
        ensures origin { made_of (meaning self.new) ≡ made_of (meaning self.old) }
        ensures receivers { All (IsToNeighbour (meaning self.old)) out.new }
        ensures again { failed_of (meaning self.old) ≡ true → IsErr result };

    /// Whether the agent has ended.
    fn ended(&self) -> bool
        ensures { result ≡ ended_of (meaning self.now) };

    /// The agent's value; 0 as long as it has taken none.
    fn value(&self) -> Val
        ensures { result ≡ value_of (meaning self.now) };

    /// The bounds and the threshold of an ADOPT agent; 0, none and 0 for other kinds.
    fn standing(&self) -> Standing
        ensures { result ≡ standing_of (meaning self.now) };

    /// The UTIL table that a DPOP agent made; `None` exactly if the agent has not joined its tables
    /// or is of another kind.
    fn table(&self) -> Option<&Table>
        ensures { MatchOption result (table_of (meaning self.now) ≡ None)
            (λ t. table_of (meaning self.now) ≡ Some t.now) };

    /// The place of an ended token agent, without the path's sizes; `None` exactly if the agent has
    /// not ended or is of another kind.
    fn place(&self) -> Option<&Place>
        ensures { MatchOption result (place_of (meaning self.now) ≡ None)
            (λ p. place_of (meaning self.now) ≡ Some p.now) };
}
