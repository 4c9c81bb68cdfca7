//! A run of ADOPT that is replayed.

ghost use Rattle.std.specs.Prelude.{◌≡◌, ℕ, ◌<◌, true, length, Some, IfOk, OnOk};
ghost use Rattle.dcop_base.specs.Graph.{are_neighbours};
ghost use Rattle.pseudotree.specs.Fault.{parent_at};
ghost use Rattle.pseudotree.specs.Tree.{parent_of};
ghost use Rattle.pseudotree.specs.Pseudotree.{IsPseudotreeOf, IsLinked};
ghost use Rattle.delivery_core.specs.Agents.{IsTreeFor};

use dcop_base::{
    CellList, NoMemory, Problem, Sequence, SizeList, Table, Val, VarId, VarList, private,
};
use delivery_core::{Start, replay};
use protocol_steps::{Event, EventList, Message, Take};
use pseudotree::{Tree, check_tree};
use std::alloc::Global;
use std::process::Abort;
use std::test::Fail;

// The triangle of 0, 1 and 2 with the tail 3 at 1, in which two variables that are both 1 cost
// nothing.
pub(crate) fn paw(alloc: Global) -> Result<Problem, Fail> {
    let mut tables = Vec::new(alloc);
    for (one, other) in [(0, 1), (0, 2), (1, 2), (1, 3)] {
        let scope = [VarId(one), VarId(other)];
        tables.push(table_of(alloc, &scope, &[2, 2], &[1, 2, 2, 0])?)?;
    }
    let sizes = SizeList::from_slice(alloc, &[2, 2, 2, 2])?;
    Ok(Problem::new(alloc, sizes, Sequence::from_vec(tables))?)
}

// The table with this scope, these sizes and these cells.
fn table_of(alloc: Global, scope: &[VarId], sizes: &[u16], cells: &[u64]) -> Result<Table, Fail> {
    let scope = VarList::from_slice(alloc, scope)?;
    let sizes = SizeList::from_slice(alloc, sizes)?;
    let cells = CellList::from_vec(Vec::from_slice(alloc, cells)?);
    Ok(Table::new(scope, sizes, cells)?)
}

// Whether a variable is the root or a neighbour of its parent.
fn is_tied(alloc: Global, problem: &Problem, tree: &Tree, var: VarId) -> Result<bool, NoMemory>
    requires tree { IsPseudotreeOf problem.now tree.now }
    requires within { var < length problem.now.sizes }
    ensures { IfOk result (λ tied. tied ≡ true
        → (u : ℕ) → parent_of tree.now.paths var ≡ Some u → are_neighbours problem.now var u ≡ true) }
{
    let own = private(alloc, problem, var)?;
    match tree.parent(var) {
        None => Ok(true),
        Some(parent) => Ok(own.neighbours.as_slice().contains(&parent)),
    }
}

// These parents; a number that is no variable means none.
fn parents_of(alloc: Global, above: &[u32]) -> Result<Vec<Option<VarId>>, NoMemory>
    ensures sized { IfOk result (λ parents. length parents.items ≡ length above.now) }
    ensures known { IfOk result (λ parents.
        (v u : ℕ) → parent_at parents.items v ≡ Some u → u < length above.now) }
{
    let mut parents = Vec::new(alloc);
    for var in above {
        let is_root = *var as usize >= above.len();
        parents.push(if is_root { None } else { Some(VarId(*var)) })?;
    }
    Ok(parents)
}

// Checks that each variable but the root is a neighbour of its parent.
fn see_links(rt: &impl Abort, alloc: Global, problem: &Problem, tree: &Tree) -> Result<(), Fail>
    requires { IsPseudotreeOf problem.now tree.now }
    ensures { OnOk result (IsLinked problem.now tree.now.paths) }
{
    for index in 0..problem.sizes.as_slice().len() {
        assert!(rt; is_tied(alloc, problem, tree, VarId(index as u32))?);
    }
    Ok(())
}

// The tree of these parents, in which each variable but the root is a neighbour of its parent.
pub(crate) fn tree_of(
    rt: &impl Abort,
    alloc: Global,
    problem: &Problem,
    above: &[u32],
) -> Result<Tree, Fail>
    ensures { IfOk result (IsTreeFor problem.now) }
{
    let parents = parents_of(alloc, above)?;
    assert!(rt; problem.sizes.as_slice().len() == above.len());
    let tree = check_tree(alloc, problem, parents.as_slice())?;
    see_links(rt, alloc, problem, &tree)?;
    Ok(tree)
}

// One event of this agent for each of these takes.
fn events_of(alloc: Global, agent: VarId, takes: &[Take]) -> Result<EventList, NoMemory> {
    let mut events = Vec::new(alloc);
    for take in takes {
        let takes = Sequence::from_vec(Vec::from_slice(alloc, &[*take])?);
        events.push(Event { agent, takes })?;
    }
    Ok(Sequence::from_vec(events))
}

// This many messages of a sender.
fn take(from: u32, count: u32) -> Take {
    Take {
        from: VarId(from),
        count,
    }
}

// This variable at its first value.
fn zero(var: u32) -> (VarId, Val) {
    (VarId(var), Val(0))
}

// Whether a message is a COST with this context and these bounds.
fn is_cost(message: Option<&Message>, pairs: &[(VarId, Val)], bounds: (u64, Option<u64>)) -> bool {
    let Some(
        Message::Cost {
            context,
            lower,
            upper,
        },
    ) = message
    else {
        return false;
    };
    context.pairs() == pairs && *lower == bounds.0 && *upper == bounds.1
}

// Checks the COST that 2 has sent to 1 in this graph after this many messages of each of these
// senders.
fn see_cost(
    rt: &impl Abort,
    alloc: Global,
    takes: &[Take],
    pairs: &[(VarId, Val)],
    bounds: (u64, Option<u64>),
) -> Result<(), Fail> {
    let events = events_of(alloc, VarId(2), takes)?;
    let paw = paw(alloc)?;
    let tree = tree_of(rt, alloc, &paw, &[4, 0, 1, 1])?;
    let state = replay(alloc, &paw, Start::Adopt(tree, 0), &events)?;
    assert!(rt; paw.sizes.as_slice().len() == 4);
    assert!(rt; is_cost(state.last_sent(VarId(2), VarId(1)), pairs, bounds));
    Ok(())
}

#[test]
fn a_cost_in_the_paw_has_an_upper_bound_once_all_is_known(rt: HostRuntime) -> Result<(), Fail> {
    let alloc = rt.alloc();
    let takes = [take(1, 2), take(0, 1)];
    see_cost(&rt, alloc, &[], &[], (0, None))?;
    see_cost(&rt, alloc, &[take(1, 2)], &[zero(1)], (1, None))?;
    see_cost(&rt, alloc, &takes, &[zero(0), zero(1)], (2, Some(2)))
}
