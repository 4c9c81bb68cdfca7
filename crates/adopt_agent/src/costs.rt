//! The cost of each own value by the agent's own tables.

ghost use Rattle.std.specs.Prelude.{◌≡◌, ◌≤◌, true, not, ◌&&◌, ◌||◌, ◌==◌, false, length, is_some, IfOk};
ghost use Rattle.std.specs.List.{All, filter, list_all};
ghost use Rattle.dcop_base.specs.Limits.{amount_limit};
ghost use Rattle.dcop_base.specs.Table.{has};
ghost use Rattle.adopt_context.specs.Context.{Context, names_all, value_in};
ghost use Rattle.adopt_agent.specs.Costs.{IsGrown, is_alike};
ghost use Rattle.adopt_agent.specs.Sound.{AreAdded, AreCosts, IsAdoptGround};

use adopt_context::AgentContext;
use dcop_base::{NoMemory, Private, Val, VarId, VarList, stands_in};
use local_costs::add_table;
use pseudotree::Place;
use std::alloc::Global;

/// Whether these pairs are the same.
pub(crate) fn are_same(pairs: &[(VarId, Val)], others: &[(VarId, Val)]) -> bool
    ensures { result ≡ true → pairs.now ≡ others.now }
{
    pairs == others
}

/// A copy of these variables.
pub(crate) fn copy_of(alloc: Global, vars: &[VarId]) -> Result<VarList, NoMemory>
    ensures { IfOk result (λ list. list ≡ vars.now) }
{
    Ok(VarList::from_slice(alloc, vars)?)
}

/// Whether a variable is the agent's own or its value is known.
fn is_settled(var: VarId, me: VarId, known: &AgentContext) -> bool
    ensures { result ≡ (var == me || is_some (value_in known.now var)) }
{
    var == me || known.get(var).is_some()
}

/// Whether a table counts: besides the agent it names only variables whose values are known. Only
/// variables of the path have known values.
fn counts(scope: &[VarId], me: VarId, known: &AgentContext) -> bool
    ensures { result ≡ list_all (λ u. u == me || is_some (value_in known.now u)) scope.now }
{
    scope.iter().all(|var| is_settled(*var, me, known))
}

/// The higher neighbours: those that are in the path, in their order.
pub(crate) fn higher_of(
    alloc: Global,
    neighbours: &[VarId],
    path: &[VarId],
) -> Result<VarList, NoMemory>
    ensures { IfOk result (λ higher. higher ≡ filter (has path.now) neighbours.now) }
{
    let mut higher = VarList::new(alloc);
    for var in neighbours {
        if stands_in(path, *var) {
            higher.push(*var)?;
        }
    }
    Ok(higher)
}

/// Whether two pairs name the same variable, and have the same value or a variable that is not in
/// `vars`.
fn are_alike(pair: (VarId, Val), other: (VarId, Val), vars: &[VarId]) -> bool
    ensures { result ≡ (pair.0 == other.0 && (pair.1 == other.1 || not (has vars.now pair.0))) }
{
    pair.0 == other.0 && (pair.1 == other.1 || !stands_in(vars, pair.0))
}

/// Whether two contexts name the same variables and differ at most in the values of variables that
/// are not in `vars`.
#[tactic(auto, using(crate::proofs::KeptLaws::alike_next))]
fn is_alike(vars: &[VarId], pairs: &[(VarId, Val)], others: &[(VarId, Val)]) -> bool
    ensures { result ≡ true → is_alike vars.now pairs.now others.now ≡ true }
{
    if pairs.len() != others.len() {
        return false;
    }
    for (k, pair) in pairs.iter().enumerate() {
        if !are_alike(*pair, others[k], vars) {
            return false;
        }
    }
    true
}

/// Whether a table counts and names this variable.
fn counts_with(scope: &[VarId], var: VarId, me: VarId, known: &AgentContext) -> bool
    ensures { result ≡ (has scope.now var
        && list_all (λ u. u == me || is_some (value_in known.now u)) scope.now) }
{
    stands_in(scope, var) && counts(scope, me, known)
}

/// Adds the cells of the tables that count and name this variable to the costs of the own values.
/// Sums are cut off at the cap.
pub(crate) fn add_tables(
    costs: &mut [u64],
    own: &Private,
    place: &Place,
    known: &AgentContext,
    var: VarId,
)
    requires ground { IsAdoptGround own.now place.now known.now }
    requires counted { length costs.old ≡ own.now.size }
    requires within { All (λ c. c ≤ amount_limit) costs.old }
    ensures { AreAdded own.now place.now known.now var costs.old costs.new }
{
    for table in own.tables.as_slice() {
        if counts_with(table.scope.as_slice(), var, own.me, known) {
            add_table(costs, table, own.me, known);
        }
    }
}

/// The cost of each own value by the tables that count. All of these name the agent.
pub(crate) fn set_costs(costs: &mut [u64], own: &Private, place: &Place, known: &AgentContext)
    requires ground { IsAdoptGround own.now place.now known.now }
    requires counted { length costs.old ≡ own.now.size }
    ensures { AreCosts own.now place.now known.now costs.new }
{
    costs.fill(0);
    add_tables(costs, own, place, known, own.me);
}

/// Adds to the costs those of the tables that count only because this variable has become known:
/// they name it. The other tables count as before, with the same cells.
pub(crate) fn add_known(
    costs: &mut [u64],
    own: &Private,
    place: &Place,
    known: &AgentContext,
    var: VarId,
)
    requires ground { IsAdoptGround own.now place.now known.now }
    requires other { (var == own.now.me) ≡ false }
    requires counted { length costs.old ≡ own.now.size }
    requires within { All (λ c. c ≤ amount_limit) costs.old }
    ensures { (before : Context) → IsGrown before known.now var
        → AreCosts own.now place.now before costs.old → AreCosts own.now place.now known.now costs.new }
{
    add_tables(costs, own, place, known, var);
}

/// Computes the costs anew for what is known, and returns whether all higher neighbours are known.
/// If `before` names the same variables, and has the same values of the higher neighbours, nothing
/// changes.
pub(crate) fn renew(
    costs: &mut [u64],
    knows_higher: bool,
    own: &Private,
    place: &Place,
    higher: &VarList,
    before: &AgentContext,
    known: &AgentContext,
) -> bool
    requires ground { IsAdoptGround own.now place.now known.now }
    requires costed { AreCosts own.now place.now before.now costs.old }
    requires higher { higher.now ≡ filter (has place.now.path) own.now.neighbours }
    requires knows { knows_higher ≡ names_all before.now higher.now }
    ensures costed { AreCosts own.now place.now known.now costs.new }
    ensures knows { result ≡ names_all known.now higher.now }
{
    if is_alike(higher.as_slice(), before.pairs(), known.pairs()) {
        return knows_higher;
    }
    set_costs(costs, own, place, known);
    known.names_all(higher)
}
