//! The tables with which the cells of a variable's table are compared: its own tables, and its
//! children's.

ghost use Rattle.std.specs.Prelude.{◌≡◌, ◌<◌, ◌&&◌, length, map, IfOk};
ghost use Rattle.std.specs.List.{All, list_all};
ghost use Rattle.dcop_base.specs.Table.{has};
ghost use Rattle.pseudotree.specs.Tree.{is_above, IsTree};
ghost use Rattle.pseudotree.specs.Pseudotree.{is_within, IsPseudotreeOf};
ghost use Rattle.dcop_optimum.specs.Certificate.{is_on_path, tables_on_path};
ghost use Rattle.certificate_text.specs.Fits.{FitsTables};
ghost use Rattle.certificate_check.specs.Cells.{children_told};

use crate::told::util_of;
use certificate_text::Util;
use dcop_base::{NoMemory, Problem, Table, VarId, stands_in};
use pseudotree::Tree;
use std::alloc::Global;

/// The own tables of a variable: those that name it and otherwise only ancestors of it.
pub(crate) fn own_tables<'a>(
    alloc: Global,
    problem: &'a Problem,
    tree: &Tree,
    var: VarId,
) -> Result<Vec<&'a Table>, NoMemory>
    requires tree { IsPseudotreeOf problem.now tree.now }
    requires within { var < length problem.now.sizes }
    ensures { IfOk result (λ own.
        map (λ t. t.now) own.items ≡ tables_on_path problem.now tree.now.paths var) }
{
    let mut own = Vec::new(alloc);
    for table in problem.tables.as_slice() {
        if is_on_path(tree, var, table.scope.as_slice()) {
            own.push(table)?;
        }
    }
    Ok(own)
}

/// The tables of the children of a variable.
pub(crate) fn child_tables<'a>(
    alloc: Global,
    problem: &Problem,
    tree: &Tree,
    utils: &'a [Util],
    var: VarId,
) -> Result<Vec<&'a Util>, NoMemory>
    requires tree { IsPseudotreeOf problem.now tree.now }
    requires fits { FitsTables problem.now.sizes utils.now }
    requires within { var < length problem.now.sizes }
    ensures { IfOk result (λ children.
        map (λ u. u.now) children.items ≡ children_told tree.now.paths utils.now var) }
{
    let mut children = Vec::new(alloc);
    for child in tree.children(var).as_slice() {
        children.push(util_of(utils, *child))?;
    }
    Ok(children)
}

/// Whether a scope names a variable and otherwise only ancestors of it.
fn is_on_path(tree: &Tree, var: VarId, scope: &[VarId]) -> bool
    requires tree { IsTree tree.now.paths }
    requires var { var < length tree.now.paths }
    requires scope { All (λ v. v < length tree.now.paths) scope.now }
    ensures { result ≡ (has scope.now var && list_all (λ v. is_within tree.now.paths v var) scope.now) }
{
    stands_in(scope, var) && are_all_over(tree, scope, var)
}

/// Whether each variable of a scope is this one or an ancestor of it.
fn are_all_over(tree: &Tree, scope: &[VarId], var: VarId) -> bool
    requires tree { IsTree tree.now.paths }
    requires var { var < length tree.now.paths }
    requires scope { All (λ v. v < length tree.now.paths) scope.now }
    ensures { result ≡ list_all (λ v. is_within tree.now.paths v var) scope.now }
{
    for named in scope {
        if !is_within(tree, *named, var) {
            return false;
        }
    }
    true
}

/// Whether a variable is this one or a descendant of it.
fn is_within(tree: &Tree, ancestor: VarId, var: VarId) -> bool
    requires tree { IsTree tree.now.paths }
    requires ancestor { ancestor < length tree.now.paths }
    requires var { var < length tree.now.paths }
    ensures { result ≡ is_within tree.now.paths ancestor var }
{
    var == ancestor || is_above(tree, ancestor, var)
}

/// Whether a variable is a proper ancestor of another one: the other's path has it at the position
/// that is its own depth.
fn is_above(tree: &Tree, ancestor: VarId, var: VarId) -> bool
    requires tree { IsTree tree.now.paths }
    requires ancestor { ancestor < length tree.now.paths }
    requires var { var < length tree.now.paths }
    ensures { result ≡ is_above tree.now.paths ancestor var }
{
    let depth = tree.path(ancestor).as_slice().len();
    match tree.path(var).as_slice().get(depth) {
        Some(found) => *found == ancestor,
        None => false,
    }
}
