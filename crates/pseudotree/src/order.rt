//! The children of each variable of a tree, and the preorder.

ghost use Rattle.std.specs.Prelude.{◌≡◌, ◌<◌, ◌≤◌, ◌++◌, length, IfOk, OnOk, replicate, []};
ghost use Rattle.dcop_base.specs.Limits.{variable_limit};
ghost use Rattle.pseudotree.specs.Tree.{path_of, parent_of, IsTree};
ghost use Rattle.pseudotree.specs.Preorder.{subtree, preorder_of};
ghost use Rattle.pseudotree.specs.Parts.{AreChildren, AreClosed};
ghost use Rattle.pseudotree.specs.Rows.{AreRows};

use crate::rows::{empty_rows, push_at};
use dcop_base::{MAX_VARIABLES, NoMemory, VarId, VarList};
use std::alloc::Global;

/// The children of each variable, ascending.
pub(crate) fn all_children(alloc: Global, paths: &[VarList]) -> Result<Vec<VarList>, NoMemory>
    requires few { length paths.now ≤ variable_limit }
    requires tree { IsTree paths.now }
    ensures { IfOk result (λ children. AreChildren paths.now children.items) }
{
    let mut rows = empty_rows(alloc, paths.len())?;
    push_children(rows.as_mut_slice(), paths)?;
    Ok(rows)
}

/// Adds each variable to the row of its parent.
fn push_children(rows: &mut [VarList], paths: &[VarList]) -> Result<(), NoMemory>
    requires few { length paths.now ≤ variable_limit }
    requires tree { IsTree paths.now }
    requires empty { rows.old ≡ replicate (length paths.now) [] }
    ensures added { OnOk result (AreRows (parent_of paths.now) (length paths.now) rows.new) }
    ensures size { length rows.new ≡ length rows.old }
{
    for index in 0..paths.len() {
        if let Some(parent) = paths[index].as_slice().last() {
            push_at(rows, parent.0 as usize, VarId(index as u32))?;
        }
    }
    Ok(())
}

/// All variables in preorder.
pub(crate) fn preorder_of(
    alloc: Global,
    paths: &[VarList],
    children: &[VarList],
) -> Result<VarList, NoMemory>
    requires few { length paths.now ≤ variable_limit }
    requires children { AreChildren paths.now children.now }
    ensures { IfOk result (λ order. order ≡ preorder_of paths.now) }
{
    let mut order = Vec::with_capacity(alloc, paths.len())?;
    for index in 0..paths.len() {
        if paths[index].as_slice().is_empty() {
            push_subtree(&mut order, children, paths.len(), VarId(index as u32))?;
        }
    }
    Ok(VarList::from_vec(order))
}

fn push_subtree(
    order: &mut Vec<VarId>,
    children: &[VarList],
    levels: usize,
    var: VarId,
) -> Result<(), NoMemory>
    requires closed { AreClosed children.now }
    requires within { var < length children.now }
    ensures { OnOk result
        (order.new.items ≡ order.old.items ++ subtree (path_of children.now) levels var) }
{
    order.push(var)?;
    if levels > 0 {
        for child in children[var.0 as usize].as_slice() {
            push_subtree(order, children, levels - 1, *child)?;
        }
    }
    Ok(())
}
