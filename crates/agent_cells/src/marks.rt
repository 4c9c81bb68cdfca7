//! Marks of agents to which something was sent.

ghost use Rattle.std.specs.Prelude.{◌≡◌, ◌≢◌, ◌<◌, ℕ, length, slice_get, Some, true};
ghost use Rattle.agent_cells.specs.Marked.{StayMarked, AreMarked};

use dcop_base::VarId;
use protocol_steps::Outbox;

/// Marks the receivers of what is sent. Receivers without a mark are passed over.
pub(crate) fn mark_receivers(marks: &mut [bool], out: &Outbox)
    ensures stay { StayMarked marks.old marks.new }
    ensures marked { AreMarked out.now marks.new }
{
    for parcel in out.as_slice() {
        mark(marks, parcel.to);
    }
}

/// Marks an agent, if it has a mark.
fn mark(marks: &mut [bool], agent: VarId)
    ensures size { length marks.new ≡ length marks.old }
    ensures here { agent < length marks.old → slice_get marks.new agent ≡ Some true }
    ensures others { (j : ℕ) → j ≢ agent → slice_get marks.new j ≡ slice_get marks.old j }
{
    let place = agent.0 as usize;
    if place < marks.len() {
        marks[place] = true;
    }
}
