//! Joints, which connect the components of the graph of tables.

ghost use Rattle.std.specs.Prelude.{◌≡◌, ℕ, ◌-◌, ◌<◌, ◌≤◌, ◌∷◌, [], ◌==◌, false, map, length, IfOk, if◌then◌else◌, slice_index};
ghost use Rattle.std.specs.List.{All, range_with_len};
ghost use Rattle.dcop_base.specs.Limits.{variable_limit};
ghost use Rattle.dcop_base.specs.Graph.{AreJoints};
ghost use Rattle.dcop_base.specs.Labels.{AreLabels, IsJoined, own_joints};

use crate::memory::NoMemory;
use crate::number::VarId;
use crate::sequence::PairList;
use crate::table::Table;
use std::alloc::Global;

/// The joints of a problem with these tables and `variables` variables: one from variable 0 to the
/// first variable of each other component of the graph of tables, in ascending order.
///
/// Each variable starts with itself as its label. Each table then gives its variables the lowest of
/// their labels. A label is replaced everywhere at once and never returns, so the time is
/// proportional to the scopes of all tables plus the square of the number of variables.
///
/// # Errors
///
/// [`NoMemory`] if memory runs out.
pub(crate) fn joints_of(
    alloc: Global,
    variables: usize,
    tables: &[Table],
) -> Result<PairList, NoMemory>
    requires some { 1 ≤ variables }
    requires few { variables ≤ variable_limit }
    requires within { All (λ t. All (λ v. v < variables) t.scope) tables.now }
    ensures { IfOk result (λ joints. AreJoints variables tables.now joints) }
{
    let mut labels = own_labels(alloc, variables)?;
    join_tables(labels.as_mut_slice(), tables);
    let joints = joints_to_firsts(alloc, labels.as_slice())?;
    Ok(PairList::from_vec(joints))
}

/// Each variable as its own label.
fn own_labels(alloc: Global, variables: usize) -> Result<Vec<VarId>, NoMemory>
    requires { variables ≤ variable_limit }
    ensures { IfOk result (λ labels. labels.items ≡ range_with_len 0 variables) }
{
    let mut labels = Vec::with_capacity(alloc, variables)?;
    for variable in 0..variables {
        labels.push(VarId(variable as u32))?;
    }
    Ok(labels)
}

/// Labels each variable with the first variable of its component in the graph of these tables.
///
/// A variable above all variables that the tables so far have named is its own label, so such
/// variables are skipped.
fn join_tables(labels: &mut [VarId], tables: &[Table])
    requires own { labels.old ≡ range_with_len 0 (length labels.old) }
    requires within { All (λ t. All (λ v. v < length labels.old) t.scope) tables.now }
    ensures { AreLabels tables.now labels.new }
{
    let mut named = 0;
    for table in tables {
        let scope = table.scope.as_slice();
        named = end_of(scope, named);
        let (front, _) = labels.split_at_mut(named);
        join_scope(front, scope);
    }
}

/// The least number that is at least `least` and above all variables of the scope.
fn end_of(scope: &[VarId], least: usize) -> usize
    ensures least { least ≤ result }
    ensures above { All (λ v. v < result) scope.now }
    ensures within { (n : ℕ) → least ≤ n → All (λ v. v < n) scope.now → result ≤ n }
{
    let mut end = least;
    for var in scope {
        end = end.max(var.0 as usize + 1);
    }
    end
}

/// Gives the variables of a scope one label.
fn join_scope(labels: &mut [VarId], scope: &[VarId])
    requires within { All (λ v. v < length labels.old) scope.now }
    requires low { (v : ℕ) → slice_index labels.old v ≤ v }
    ensures { IsJoined scope.now labels.old labels.new }
{
    if let Some((first, others)) = scope.split_first() {
        for other in others {
            join(labels, *first, *other);
        }
    }
}

/// Gives two variables, and all variables that share a label with one of them, the lower of their
/// two labels.
fn join(labels: &mut [VarId], one: VarId, other: VarId)
    requires one { one < length labels.old }
    requires other { other < length labels.old }
    requires low { (v : ℕ) → slice_index labels.old v ≤ v }
    ensures { IsJoined (one ∷ other ∷ []) labels.old labels.new }
{
    let label = labels[one.0 as usize];
    let other_label = labels[other.0 as usize];
    if label < other_label {
        relabel(labels, other_label, label);
    } else if other_label < label {
        relabel(labels, label, other_label);
    }
}

/// Replaces the label `from` by `to`. No variable below `from` has the label `from`.
fn relabel(labels: &mut [VarId], from: VarId, to: VarId)
    requires within { from < length labels.old }
    requires low { (v : ℕ) → slice_index labels.old v ≤ v }
    ensures { labels.new ≡ map (λ label. if label == from then to else label) labels.old }
{
    let (_, others) = labels.split_at_mut(from.0 as usize);
    replace(others, from, to);
}

/// Replaces the label `from` by `to` at each place.
fn replace(labels: &mut [VarId], from: VarId, to: VarId)
    ensures { labels.new ≡ map (λ label. if label == from then to else label) labels.old }
{
    for label in labels.iter_mut() {
        *label = replaced(*label, from, to);
    }
}

/// The label, or `to` if it is `from`.
fn replaced(label: VarId, from: VarId, to: VarId) -> VarId
    ensures { result ≡ if label == from then to else label }
{
    if label == from { to } else { label }
}

/// A joint from variable 0 to each other variable that is its own label, ascending.
fn joints_to_firsts(alloc: Global, labels: &[VarId]) -> Result<Vec<(VarId, VarId)>, NoMemory>
    requires some { 1 ≤ length labels.now }
    requires few { length labels.now ≤ variable_limit }
    ensures { IfOk result (λ joints. joints.items ≡ own_joints labels.now (length labels.now - 1)) }
{
    let mut joints = Vec::new(alloc);
    for variable in 1..labels.len() {
        let first = VarId(variable as u32);
        if labels[variable] == first {
            joints.push((VarId(0), first))?;
        }
    }
    Ok(joints)
}
