//! The states of the agents of a core state.

ghost use Rattle.std.specs.Prelude.{◌≡◌, ◌<◌, ◌≤◌, length, Some, IfOk};
ghost use Rattle.std.specs.Option.{option_map};
ghost use Rattle.dcop_base.specs.Limits.{variable_limit};
ghost use Rattle.delivery_core.specs.State.{view_at, views_of};
ghost use Rattle.solve_printed.specs.Rows.{row_of, rows_from};

use dcop_base::{MAX_VARIABLES, NoMemory, VarId};
use delivery_core::CoreState;
use solve_report::{AgentRow, AgentRowList};
use std::alloc::Global;

/// The state of each of the first `count` agents, in the order of the variables.
pub(crate) fn rows_of(
    alloc: Global,
    core: &CoreState,
    count: usize,
) -> Result<AgentRowList, NoMemory>
    requires all { count ≡ length core.now.seats }
    requires few { count ≤ variable_limit }
    ensures { IfOk result (λ rows. rows ≡ rows_from 0 (views_of core.now.seats)) }
{
    let mut rows = Vec::with_capacity(alloc, count)?;
    for at in 0..count {
        rows.push(row_of(core, VarId(at as u32)))?;
    }
    Ok(AgentRowList::from_vec(rows))
}

/// The state of an agent.
fn row_of(core: &CoreState, agent: VarId) -> AgentRow
    requires { agent < length core.now.seats }
    ensures { option_map (row_of agent) (view_at core.now agent) ≡ Some result }
{
    AgentRow {
        agent,
        value: core.value(agent),
        standing: core.standing(agent),
        ended: core.ended(agent),
    }
}
