//! The outcome of the agents of cells.

ghost use Rattle.std.specs.Prelude.{◌≡◌, ◌<◌, ◌≤◌, length, map, IfOk, MatchOption, Some, None};
ghost use Rattle.protocol_steps.specs.View.{value_of, table_of, place_of};
ghost use Rattle.worker_laws.specs.CellRounds.{total};
ghost use Rattle.worker_laws.specs.CellRuns.{all_ended as have_all_ended, IsCellOutcome};
ghost use Rattle.agent_cells.specs.State.{state_of};
ghost use Rattle.agent_workers.specs.Joined.{states_of};
ghost use Rattle.agent_links.specs.Ready.{deliveries_in};

use agent_cells::Cell;
use dcop_base::{NoMemory, Table, ValList};
use protocol_steps::{OptionList, Outcome, RunEnd};
use pseudotree::Place;
use std::alloc::Global;

/// The outcome of the agents of cells whose run has ended in this way: their values, UTIL tables
/// and places, the bounds and the threshold of agent 0, the number of deliveries, and whether all
/// agents have ended. Tables and places are copied.
///
/// # Errors
///
/// [`NoMemory`] if memory runs out.
pub fn outcome_of(alloc: Global, cells: &[Cell], end: RunEnd) -> Result<Outcome, NoMemory>
    requires some { 0 < length cells.now }
    requires told { deliveries_in end ≡ total (states_of (λ b. meaning (b.vtable, b.value)) cells.now) }
    ensures { IfOk result (IsCellOutcome (states_of (λ b. meaning (b.vtable, b.value)) cells.now)) }
{
    Ok(Outcome {
        values: values_of(alloc, cells)?,
        tables: tables_of(alloc, cells)?,
        places: places_of(alloc, cells)?,
        top: cells[0].standing(),
        deliveries: deliveries_in(end),
        ended: all_ended(cells),
    })
}

/// How many messages were taken in a run that ended in this way.
fn deliveries_in(end: RunEnd) -> u64
    ensures { result ≡ deliveries_in end }
{
    match end {
        RunEnd::AllEnded { deliveries } => deliveries,
        RunEnd::Spent { deliveries } => deliveries,
        RunEnd::Still { deliveries } => deliveries,
    }
}

/// Whether all agents have ended.
fn all_ended(cells: &[Cell]) -> bool
    ensures { result ≡ have_all_ended (states_of (λ b. meaning (b.vtable, b.value)) cells.now) }
{
    for cell in cells {
        if !cell.ended() {
            return false;
        }
    }
    true
}

/// The agents' values.
fn values_of(alloc: Global, cells: &[Cell]) -> Result<ValList, NoMemory>
    ensures { IfOk result (λ values. values ≡ map (λ c. value_of (state_of (λ b. meaning (b.vtable, b.value)) c).view) cells.now) }
{
    let mut values = Vec::with_capacity(alloc, cells.len())?;
    for cell in cells {
        values.push(cell.value())?;
    }
    Ok(ValList::from_vec(values))
}

/// The tables that the agents made.
fn tables_of(alloc: Global, cells: &[Cell]) -> Result<OptionList<Table>, NoMemory>
    ensures { IfOk result (λ tables. tables ≡ map (λ c. table_of (state_of (λ b. meaning (b.vtable, b.value)) c).view) cells.now) }
{
    let mut tables = OptionList::new(alloc, cells.len());
    for cell in cells {
        tables.push(table_in(cell)?)?;
    }
    Ok(tables)
}

/// The table that an agent made.
fn table_in(cell: &Cell) -> Result<Option<Table>, NoMemory>
    ensures { IfOk result (λ table. table ≡ table_of (state_of (λ b. meaning (b.vtable, b.value)) cell.now).view) }
{
    match cell.table() {
        Some(table) => Ok(Some(table.clone()?)),
        None => Ok(None),
    }
}

/// The places that the agents found.
fn places_of(alloc: Global, cells: &[Cell]) -> Result<OptionList<Place>, NoMemory>
    ensures { IfOk result (λ places. places ≡ map (λ c. place_of (state_of (λ b. meaning (b.vtable, b.value)) c).view) cells.now) }
{
    let mut places = OptionList::new(alloc, cells.len());
    for cell in cells {
        places.push(place_in(cell)?)?;
    }
    Ok(places)
}

/// The place that an agent found.
fn place_in(cell: &Cell) -> Result<Option<Place>, NoMemory>
    ensures { IfOk result (λ place. place ≡ place_of (state_of (λ b. meaning (b.vtable, b.value)) cell.now).view) }
{
    match cell.place() {
        Some(place) => Ok(Some(copy_of(place)?)),
        None => Ok(None),
    }
}

/// A copy of a place.
fn copy_of(place: &Place) -> Result<Place, NoMemory>
    ensures { IfOk result (λ copy. copy ≡ place.now) }
{
    Ok(Place {
        me: place.me,
        path: place.path.clone()?,
        path_sizes: place.path_sizes.clone()?,
        children: place.children.clone()?,
        lower: place.lower.clone()?,
    })
}
