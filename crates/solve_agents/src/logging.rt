//! The log of a run, from the cells that have made it.

ghost use Rattle.std.specs.Prelude.{◌≡◌, ℕ, ◌≤◌, length, is_some, map, IfOk, IfSome};
ghost use Rattle.dcop_base.specs.Limits.{variable_limit};
ghost use Rattle.protocol_steps.specs.JournalStamps.{journal_at};
ghost use Rattle.worker_laws.specs.CellRuns.{journals_of};
ghost use Rattle.worker_laws.specs.Merges.{AscendsAbove, IsMerge};
ghost use Rattle.agent_cells.specs.State.{state_of};
ghost use Rattle.agent_workers.specs.Joined.{states_of};
ghost use Rattle.run_log.specs.Logs.{entries_of};

use agent_cells::Cell;
use dcop_base::NoMemory;
use protocol_steps::{Journal, JournalList};
use run_log::{Log, merge};
use std::alloc::Global;

/// The merged journals of these cells, by stamp and then agent, exactly when a log is requested.
pub(crate) fn log_if(
    alloc: Global,
    certified: bool,
    cells: &[Cell],
) -> Result<Option<Log>, NoMemory>
    requires few { length cells.now ≤ variable_limit }
    requires ascend { (i : ℕ) → AscendsAbove 0 (journal_at (journals_of (states_of (λ b. meaning (b.vtable, b.value)) cells.now)) i) }
    ensures asked { IfOk result (λ log. is_some log ≡ certified) }
    ensures merged { IfOk result (λ log. IfSome log (λ events. IsMerge (journals_of (states_of (λ b. meaning (b.vtable, b.value)) cells.now)) (entries_of events))) }
{
    if !certified {
        return Ok(None);
    }
    let journals = journals_in(alloc, cells)?;
    Ok(Some(merge(alloc, &journals)?))
}

/// A copy of the journals of these cells.
fn journals_in(alloc: Global, cells: &[Cell]) -> Result<JournalList, NoMemory>
    ensures { IfOk result (λ journals. journals ≡ map (λ c. (state_of (λ b. meaning (b.vtable, b.value)) c).journal) cells.now) }
{
    let mut journals = Vec::with_capacity(alloc, cells.len())?;
    for cell in cells {
        journals.push(journal_in(cell)?)?;
    }
    Ok(JournalList::from_vec(journals))
}

/// A copy of the journal of a cell.
fn journal_in(cell: &Cell) -> Result<Journal, NoMemory>
    ensures { IfOk result (λ journal. journal ≡ (state_of (λ b. meaning (b.vtable, b.value)) cell.now).journal) }
{
    Ok(cell.journal().clone()?)
}
