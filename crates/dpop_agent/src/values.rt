//! The values that an agent sends to its children.

ghost use Rattle.std.specs.Prelude.{◌≡◌, ◌<◌, ◌++◌, length, map, IfOk};
ghost use Rattle.std.specs.List.{All, flat_map, zip};
ghost use Rattle.dcop_base.specs.Limits.{size_limit, variable_limit};
ghost use Rattle.dcop_base.specs.Values.{with_own};
ghost use Rattle.protocol_steps.specs.declared.message.Message.TheVariants.{ValueAll};
ghost use Rattle.protocol_steps.specs.Ranges.{IsContext};
ghost use Rattle.protocol_steps.specs.Values.{valued, context_of};
ghost use Rattle.protocol_steps.specs.Dpop.{there};

use adopt_context::AgentContext;
use dcop_base::{NoMemory, Table, Val, VarId};
use protocol_steps::{Message, Parcel};
use std::alloc::Global;

/// The value that a context gives to a variable; 0 if it does not name the variable.
fn value_of(var: VarId, values: &AgentContext) -> Val
    ensures { result ≡ valued values.now var }
{
    match values.get(var) {
        Some(value) => value,
        None => Val(0),
    }
}

/// The agent's value for its own variable, and the values that a context gives to others.
fn value_with(var: VarId, me: VarId, best: Val, values: &AgentContext) -> Val
    ensures { result ≡ with_own me best (valued values.now) var }
{
    if var == me {
        best
    } else {
        value_of(var, values)
    }
}

/// The context of these variables.
fn context_for(
    alloc: Global,
    scope: &[VarId],
    me: VarId,
    best: Val,
    values: &AgentContext,
) -> Result<AgentContext, NoMemory>
    ensures { IfOk result (λ context. context
        ≡ context_of scope.now (with_own me best (valued values.now))) }
{
    let mut context = AgentContext::new(alloc);
    for var in scope {
        context.set(*var, value_with(*var, me, best, values))?;
    }
    Ok(context)
}

/// VALUE for a child whose table has this scope.
fn parcel_for(
    alloc: Global,
    child: VarId,
    scope: &[VarId],
    me: VarId,
    best: Val,
    values: &AgentContext,
) -> Result<Parcel, NoMemory>
    requires scope { All (λ u. u < variable_limit) scope.now }
    requires best { best < size_limit }
    requires range { IsContext values.now }
    ensures { IfOk result (λ parcel. parcel
        ≡ (child, ValueAll (context_of scope.now (with_own me best (valued values.now))))) }
{
    let values = context_for(alloc, scope, me, best, values)?;
    Ok(Parcel {
        to: child,
        message: Message::ValueAll { values },
    })
}

/// These parcels, and VALUE for each child whose table is kept: the values of the table's scope.
pub(crate) fn values_for(
    alloc: Global,
    children: &[VarId],
    kept: &[Option<Table>],
    me: VarId,
    best: Val,
    values: &AgentContext,
    parcels: Vec<Parcel>,
) -> Result<Vec<Parcel>, NoMemory>
    requires counted { length kept.now ≡ length children.now }
    requires scopes { All (λ t. All (λ u. u < variable_limit) t.scope) (flat_map there kept.now) }
    requires best { best < size_limit }
    requires range { IsContext values.now }
    ensures { IfOk result (λ ps. ps.items
        ≡ parcels.items ++ flat_map (λ kept. map (λ t. (
          kept.0,
          ValueAll
              (context_of t.scope (with_own me best (valued values.now))),
        )) (there kept.1))
        (zip children.now kept.now)) }
{
    let mut told = parcels;
    told.reserve(children.len())?;
    for (k, entry) in kept.iter().enumerate() {
        if let Some(table) = entry {
            let scope = table.scope.as_slice();
            told.push(parcel_for(alloc, children[k], scope, me, best, values)?)?;
        }
    }
    Ok(told)
}
