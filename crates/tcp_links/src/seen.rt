//! Which cells have done nothing since the last exchange.

ghost use Rattle.std.specs.Prelude.{◌≡◌, ◌≤◌, true, length, map, Some, slice_get, OnOk};
ghost use Rattle.dcop_base.specs.Limits.{variable_limit};
ghost use Rattle.agent_cells.specs.State.{state_of};
ghost use Rattle.tcp_links.specs.Woven.{AreStill};

use agent_cells::Cell;
use dcop_base::{MAX_VARIABLES, NoMemory, VarId};

/// For each agent whether its cell has done nothing since its journal's length was noted.
pub(crate) fn still_cells(cells: &[Cell], seen: &[usize]) -> [bool; MAX_VARIABLES]
    requires few { length cells.now ≤ variable_limit }
    ensures { AreStill (λ b. meaning (b.vtable, b.value)) seen.now result cells.now }
{
    let mut still = [false; MAX_VARIABLES];
    for (agent, cell) in cells.iter().enumerate() {
        still[agent] = is_noted(seen, agent, entries_of(cell));
    }
    still
}

/// Whether this number of entries was noted of an agent.
fn is_noted(seen: &[usize], agent: usize, entries: usize) -> bool
    ensures { result ≡ true → slice_get seen.now agent ≡ Some entries }
{
    match seen.get(agent) {
        Some(noted) => *noted == entries,
        None => false,
    }
}

/// Whether an agent is marked as still.
pub(crate) fn is_still(still: &[bool], agent: VarId) -> bool
    ensures { result ≡ true → slice_get still.now agent ≡ Some true }
{
    let Some(is) = still.get(slot(agent)) else {
        return false;
    };
    *is
}

/// Notes the length of each cell's journal.
pub(crate) fn note_all(cells: &[Cell], seen: &mut Vec<usize>) -> Result<(), NoMemory>
    ensures { OnOk result (seen.new.items ≡ map (λ c. length (state_of (λ b. meaning (b.vtable, b.value)) c).journal) cells.now) }
{
    seen.clear();
    for cell in cells {
        seen.push(entries_of(cell))?;
    }
    Ok(())
}

/// The number of entries in a cell's journal.
fn entries_of(cell: &Cell) -> usize
    ensures { result ≡ length (state_of (λ b. meaning (b.vtable, b.value)) cell.now).journal }
{
    cell.journal().as_slice().len()
}

/// The position of an agent's cell.
pub(crate) fn slot(agent: VarId) -> usize
    ensures { result ≡ agent }
{
    agent.0 as usize
}
