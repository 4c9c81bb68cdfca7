//! The value that an agent takes.

ghost use Rattle.std.specs.Prelude.{◌≡◌, ◌==◌, ◌||◌, ◌≤◌, true, length, replicate, IfOk};
ghost use Rattle.std.specs.List.{All, filter, flat_map, list_all};
ghost use Rattle.dcop_base.specs.Limits.{amount_limit};
ghost use Rattle.dcop_base.specs.Table.{has};
ghost use Rattle.protocol_steps.specs.Values.{valued};
ghost use Rattle.protocol_steps.specs.Dpop.{best_value, there};
ghost use Rattle.dpop_agent.specs.Keeping.{AreOffPath, keeping};
ghost use Rattle.dpop_agent.specs.Row.{AreBelowSizes, HasCells, HasRisen};
ghost use Rattle.dpop_agent.specs.Sound.{IsKeeper};

use crate::ancestors::are_above;
use adopt_context::AgentContext;
use dcop_base::{NoMemory, Private, Table, Val, VarId};
use local_costs::add_table;
use pseudotree::Place;
use std::alloc::Global;
use util_project::lowest_of;

/// The lowest own value with the least joined cost at the separator's values. The costs of all own
/// values are added up from the agent's own tables and the kept ones.
pub(crate) fn best_of(
    alloc: Global,
    own: &Private,
    place: &Place,
    kept: &[Option<Table>],
    values: &AgentContext,
) -> Result<Val, NoMemory>
    requires keeper { IsKeeper own.now place.now kept.now }
    requires within { AreBelowSizes (keeping own.now place.now kept.now) (valued values.now) }
    ensures { IfOk result (λ best. best
        ≡ best_value (keeping own.now place.now kept.now) (valued values.now)) }
{
    let size = usize::from(own.size);
    if size <= ROW {
        return Ok(best_of_few(own, place, kept, values));
    }
    let mut costs = vec![in alloc; 0; size]?;
    Ok(best_by(costs.as_mut_slice(), own, place, kept, values))
}

/// Up to this many own values, their costs are kept in an array that needs no allocation.
const ROW: usize = 32;

/// The same for an agent with few own values.
fn best_of_few(own: &Private, place: &Place, kept: &[Option<Table>], values: &AgentContext) -> Val
    requires few { own.now.size ≤ ROW }
    requires keeper { IsKeeper own.now place.now kept.now }
    requires within { AreBelowSizes (keeping own.now place.now kept.now) (valued values.now) }
    ensures { result ≡ best_value (keeping own.now place.now kept.now) (valued values.now) }
{
    let mut row = [0; ROW];
    let (costs, _) = row.split_at_mut(usize::from(own.size));
    best_by(costs, own, place, kept, values)
}

/// The same, given a row of zeros, one for each own value.
fn best_by(
    costs: &mut [u64],
    own: &Private,
    place: &Place,
    kept: &[Option<Table>],
    values: &AgentContext,
) -> Val
    requires keeper { IsKeeper own.now place.now kept.now }
    requires within { AreBelowSizes (keeping own.now place.now kept.now) (valued values.now) }
    requires zeros { costs.old ≡ replicate own.now.size 0 }
    ensures { result ≡ best_value (keeping own.now place.now kept.now) (valued values.now) }
{
    let tables = own.tables.as_slice();
    let path = place.path.as_slice();
    let lower = place.lower.as_slice();
    add_own(costs, tables, own.me, path, lower, values);
    add_kept(costs, kept, own.me, values);
    lowest_of(costs)
}

/// Adds to each cost the cells of the tables that name only the agent and variables of its path.
fn add_own(
    costs: &mut [u64],
    tables: &[Table],
    me: VarId,
    path: &[VarId],
    lower: &[VarId],
    values: &AgentContext,
)
    requires apart { AreOffPath lower.now path.now }
    requires some { 1 ≤ length costs.old }
    requires small { All (λ c. c ≤ amount_limit) costs.old }
    requires cells { All (λ t. list_all (λ u. u == me || has path.now u) t.scope ≡ true
        → HasCells me (valued values.now) (length costs.old) t) tables.now }
    ensures { HasRisen me (valued values.now)
        (filter (λ t. list_all (λ u. u == me || has path.now u) t.scope) tables.now)
        costs.old costs.new }
{
    for table in tables {
        if are_above(table.scope.as_slice(), me, path, lower) {
            add_table(costs, table, me, values);
        }
    }
}

/// Adds to each cost the cells of the kept tables.
fn add_kept(costs: &mut [u64], kept: &[Option<Table>], me: VarId, values: &AgentContext)
    requires some { 1 ≤ length costs.old }
    requires small { All (λ c. c ≤ amount_limit) costs.old }
    requires cells { All (HasCells me (valued values.now) (length costs.old))
        (flat_map there kept.now) }
    ensures { HasRisen me (valued values.now) (flat_map there kept.now) costs.old costs.new }
{
    for entry in kept {
        if let Some(table) = entry {
            add_table(costs, table, me, values);
        }
    }
}
