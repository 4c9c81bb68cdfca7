//! The agents that an edit touches.

ghost use Rattle.std.specs.Prelude.{◌≡◌, ℕ, ◌<◌, ◌||◌, Some, All, count_by, length, replicate, false};
ghost use Rattle.dcop_base.specs.Table.{has};
ghost use Rattle.pseudotree.specs.Owner.{deeper, owner_of};
ghost use Rattle.pseudotree.specs.Tree.{IsTree};
ghost use Rattle.edit_session.specs.Edits.{table_at};
ghost use Rattle.edit_session.specs.State.{is_touched, touched_by};

use dcop_base::{Problem, VarId, problem_is_whole};
use pseudotree::Tree;

/// Marks the agents on the path from the deepest variable of a table to the root, both included.
pub(crate) fn mark_way_of(touched: &mut Vec<bool>, tree: &Tree, problem: &Problem, table: usize)
    requires tree { IsTree tree.now.paths }
    requires sized { length tree.now.paths ≡ length problem.now.sizes }
    requires marked { length touched.old.items ≡ length tree.now.paths }
    requires inside { table < length problem.now.tables }
    ensures { touched.new.items
        ≡ touched_by tree.now.paths (table_at problem.now table).scope touched.old.items }
{
    problem_is_whole(problem);
    let table = &problem.tables.as_slice()[table];
    mark_way(touched.as_mut_slice(), tree, table.scope.as_slice());
}

/// Marks the agents on the path from the deepest variable of a scope to the root, both included.
fn mark_way(touched: &mut [bool], tree: &Tree, scope: &[VarId])
    requires tree { IsTree tree.now.paths }
    requires marked { length touched.old ≡ length tree.now.paths }
    requires some { 0 < length scope.now }
    requires known { All (λ v. v < length tree.now.paths) scope.now }
    ensures { touched.new ≡ touched_by tree.now.paths scope.now touched.old }
{
    let owner = owner_of(tree, scope);
    mark(touched, tree.path(owner).as_slice());
    touched[owner.0 as usize] = true;
}

/// The deepest variable of a scope, to which its table belongs.
fn owner_of(tree: &Tree, scope: &[VarId]) -> VarId
    requires some { 0 < length scope.now }
    requires known { All (λ v. v < length tree.now.paths) scope.now }
    ensures { owner_of tree.now.paths scope.now ≡ Some result }
{
    let mut owner = scope[0];
    for var in scope {
        owner = deeper(tree, owner, *var);
    }
    owner
}

/// The deeper one of two variables.
fn deeper(tree: &Tree, var: VarId, other: VarId) -> VarId
    requires var { var < length tree.now.paths }
    requires other { other < length tree.now.paths }
    ensures { result ≡ deeper tree.now.paths var other }
{
    if tree.path(var).as_slice().len() < tree.path(other).as_slice().len() {
        other
    } else {
        var
    }
}

/// Marks these agents.
fn mark(touched: &mut [bool], vars: &[VarId])
    requires { All (λ v. v < length touched.old) vars.now }
    ensures { (v : ℕ) → v < length touched.old →
        is_touched touched.new v ≡ (is_touched touched.old v || has vars.now v) }
{
    for var in vars {
        touched[var.0 as usize] = true;
    }
}

/// Unmarks all agents.
pub(crate) fn unmark(touched: &mut Vec<bool>)
    ensures { touched.new.items ≡ replicate (length touched.old.items) false }
{
    touched.as_mut_slice().fill(false);
}

/// How many agents are marked.
pub(crate) fn count_of(touched: &[bool]) -> u64
    ensures { result ≡ count_by (λ t. t) touched.now }
{
    touched.iter().filter(|mark| **mark).count() as u64
}
