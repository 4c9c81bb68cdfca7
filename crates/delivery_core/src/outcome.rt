//! The outcome of a run.

ghost use Rattle.std.specs.Prelude.{◌≡◌, ◌<◌, length, map, IfOk};
ghost use Rattle.protocol_steps.specs.View.{value_of, table_of, place_of};
ghost use Rattle.delivery_core.specs.PlayedOut.{TellsOf};

use crate::seat::Seat;
use crate::state::CoreState;
use dcop_base::{NoMemory, Table, ValList, VarId};
use protocol_steps::{OptionList, Outcome};
use pseudotree::Place;
use std::alloc::Global;

/// What the agents have made, with one item for each agent.
#[derive(Drop)]
struct Made {
    tables: OptionList<Table>,
    places: OptionList<Place>,
}

/// The values of the agents, in order.
fn values_of(alloc: Global, seats: &[Seat]) -> Result<ValList, NoMemory>
    ensures { IfOk result (λ values. values ≡ map (λ x. value_of x.view) seats.now) }
{
    let mut values = Vec::with_capacity(alloc, seats.len())?;
    for seat in seats {
        values.push(seat.agent().value())?;
    }
    Ok(ValList::from_vec(values))
}

/// The tables and the places that the agents have made, in order.
fn made_by(alloc: Global, seats: Vec<Seat>) -> Result<Made, NoMemory>
    ensures tables { IfOk result (λ made. made.tables ≡ map (λ x. table_of x.view) seats.items) }
    ensures places { IfOk result (λ made. made.places ≡ map (λ x. place_of x.view) seats.items) }
{
    let mut tables = OptionList::new(alloc, seats.len());
    let mut places = OptionList::new(alloc, seats.len());
    for seat in seats {
        let (table, place) = seat.into_agent().into_made();
        tables.push(table)?;
        places.push(place)?;
    }
    Ok(Made { tables, places })
}

/// The outcome of the agents of a state: their values, UTIL tables and places, the bounds and the
/// threshold of agent 0, the number of deliveries, and whether all agents have ended. Tables and
/// places are moved, not copied.
///
/// # Errors
///
/// [`NoMemory`] if memory runs out.
pub fn outcome_of(alloc: Global, state: CoreState) -> Result<Outcome, NoMemory>
    requires { 0 < length state.seats }
    ensures { IfOk result (TellsOf state) }
{
    let top = state.standing(VarId(0));
    let ended = state.all_ended();
    let deliveries = state.deliveries();
    let values = values_of(alloc, state.seats.as_slice())?;
    let made = made_by(alloc, state.seats)?;
    Ok(Outcome {
        values,
        tables: made.tables,
        places: made.places,
        top,
        deliveries,
        ended,
    })
}
