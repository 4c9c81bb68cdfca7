//! A round of cells.

ghost use Rattle.std.specs.Prelude.{◌≡◌, ◌≤◌, ◌<◌, ◌+◌, ◌*◌, length, IfOk, OnOk, IfErr, None};
ghost use Rattle.worker_laws.specs.CellRounds.{total};
ghost use Rattle.worker_laws.specs.OneNode.{home, IsPartRound};
ghost use Rattle.worker_laws.specs.StampCounts.{IsMoved};
ghost use Rattle.agent_cells.specs.State.{fault_in};
ghost use Rattle.agent_workers.specs.Joined.{states_of, EachIs, EachBecomes, HasBegun, IsSameCell, AreCellsJoined};
ghost use Rattle.agent_workers.specs.Turns.{sprint_limit, SomeFailed};
ghost use Rattle.agent_workers.specs.Watched.{IsTurnRound};
ghost use Rattle.agent_workers.specs.Shared.{IsSharedRound};
ghost use Rattle.agent_workers.specs.Broken.{AreCutShort};

use crate::play::play_cells;
use crate::settle::settle_all;
use crate::waiting::Waiting;
use agent_cells::{Cell, VisitFault};
use dcop_edge::Gate;
use std::thread::Threads;

/// Cells in the order of their agents' numbers.
pub type CellsList = Vec<Cell>;

/// Plays one round of cells in `nodes` nodes. First it settles every link inside a node. Then it
/// plays the cells concurrently in parts, at most one for each worker; all parts are of equal
/// length, but the last may be shorter. If so little work waits that sharing it does not pay, all
/// cells are one part, unless each worker has one cell at most. A part is played in turns. Each
/// turn visits every cell of the part that has not ended once, in order. If all cells are one part,
/// its turns pass over cells for which nothing waits, and these pass no gate. A part stops after 32
/// turns, or after a turn that took nothing. Parts after the last one for which something may wait
/// are played one after another, in one thread. Returns how many messages were taken. It allocates
/// memory.
///
/// The clause `parts` says in which parts the cells were played, and whom the turns of each part
/// visit. A part that has not all cells visits each of them in each turn. A single part passes over
/// a cell only if it knows of nothing, and nothing was sent to it since the turn before reached it
/// (in the first turn: since this turn began). The clause `turns` says this of one worker. What one
/// part sends to another during a turn has no place in the order of the visits, so no clause speaks
/// of it.
///
/// After a fault a cell has failed with this fault. The clause `left` says how the cells are left.
/// Each that has not failed is as some activations leave it. One that had failed before the round
/// has the same fault and has at most been settled. At most one for each worker has failed in the
/// round. Of a cell whose visit ran out of memory, the clause says only that its agent is still the
/// one that was made, and that its journal is as it was.
pub fn round<R: Threads + Sync, G: Gate>(
    rt: &R,
    cells: &mut CellsList,
    nodes: u32,
    workers: u32,
    gate: &G,
) -> Result<u64, VisitFault>
    requires workers { 0 < workers }
    requires joined { AreCellsJoined (λ b. meaning (b.vtable, b.value)) nodes cells.old.items }
    requires begun { EachIs (λ c. HasBegun (λ b. meaning (b.vtable, b.value)) c) cells.old.items }
    ensures joined { AreCellsJoined (λ b. meaning (b.vtable, b.value)) nodes cells.new.items }
    ensures begun { EachIs (λ c. HasBegun (λ b. meaning (b.vtable, b.value)) c) cells.new.items }
    ensures same { EachBecomes (λ a b. IsSameCell a b) cells.old.items cells.new.items }
    ensures round { OnOk result (IsPartRound (home nodes (length cells.old.items))
        (states_of (λ b. meaning (b.vtable, b.value)) cells.old.items) (states_of (λ b. meaning (b.vtable, b.value)) cells.new.items)) }
    ensures turns { workers ≡ 1 → OnOk result (IsTurnRound (λ b. meaning (b.vtable, b.value)) (home nodes (length cells.old.items)) cells.old.items cells.new.items) }
    ensures parts { OnOk result (IsSharedRound (λ b. meaning (b.vtable, b.value)) workers (home nodes (length cells.old.items)) cells.old.items cells.new.items) }
    ensures counted { IfOk result (λ n. total (states_of (λ b. meaning (b.vtable, b.value)) cells.new.items) ≡ total (states_of (λ b. meaning (b.vtable, b.value)) cells.old.items) + n) }
    ensures most { IfOk result (λ n. n ≤ length cells.old.items * sprint_limit) }
    ensures fine { OnOk result (EachBecomes (λ a b. fault_in a ≡ None → fault_in b ≡ None) cells.old.items cells.new.items) }
    ensures err { IfErr result (λ f. SomeFailed f cells.new.items) }
    ensures left { IfErr result (λ f. AreCutShort (λ b. meaning (b.vtable, b.value)) f IsMoved sprint_limit workers cells.old.items cells.new.items) }
{
    play_round(rt, cells.as_mut_slice(), nodes, workers, gate)
}

/// Does what [`round`] does, on a `&mut [Cell]` instead of a list.
pub fn play_round<R: Threads + Sync, G: Gate>(
    rt: &R,
    cells: &mut [Cell],
    nodes: u32,
    workers: u32,
    gate: &G,
) -> Result<u64, VisitFault>
    requires workers { 0 < workers }
    requires joined { AreCellsJoined (λ b. meaning (b.vtable, b.value)) nodes cells.old }
    requires begun { EachIs (λ c. HasBegun (λ b. meaning (b.vtable, b.value)) c) cells.old }
    ensures joined { AreCellsJoined (λ b. meaning (b.vtable, b.value)) nodes cells.new }
    ensures begun { EachIs (λ c. HasBegun (λ b. meaning (b.vtable, b.value)) c) cells.new }
    ensures same { EachBecomes (λ a b. IsSameCell a b) cells.old cells.new }
    ensures round { OnOk result (IsPartRound (home nodes (length cells.old))
        (states_of (λ b. meaning (b.vtable, b.value)) cells.old) (states_of (λ b. meaning (b.vtable, b.value)) cells.new)) }
    ensures turns { workers ≡ 1 → OnOk result (IsTurnRound (λ b. meaning (b.vtable, b.value)) (home nodes (length cells.old)) cells.old cells.new) }
    ensures parts { OnOk result (IsSharedRound (λ b. meaning (b.vtable, b.value)) workers (home nodes (length cells.old)) cells.old cells.new) }
    ensures counted { IfOk result (λ n. total (states_of (λ b. meaning (b.vtable, b.value)) cells.new) ≡ total (states_of (λ b. meaning (b.vtable, b.value)) cells.old) + n) }
    ensures most { IfOk result (λ n. n ≤ length cells.old * sprint_limit) }
    ensures fine { OnOk result (EachBecomes (λ a b. fault_in a ≡ None → fault_in b ≡ None) cells.old cells.new) }
    ensures err { IfErr result (λ f. SomeFailed f cells.new) }
    ensures left { IfErr result (λ f. AreCutShort (λ b. meaning (b.vtable, b.value)) f IsMoved sprint_limit workers cells.old cells.new) }
{
    let size = cells.len().div_ceil(workers as usize).max(1);
    let waiting = settle_all(cells, nodes, size);
    let size = part_size(size, cells.len(), &waiting);
    play_cells(rt, gate, size, waiting.until, cells)
}

/// The size of the parts of a round of `cells` cells: `size` if sharing pays, else one that makes
/// all cells one part. If each part has one cell, the parts are always played concurrently.
fn part_size(size: usize, cells: usize, waiting: &Waiting) -> usize
    requires { 0 < size }
    ensures some { 0 < result }
    ensures least { size ≤ result }
{
    if size == 1 || waiting.pays() {
        return size;
    }
    size.max(cells)
}
