//! Trees and their accessors.

ghost use Rattle.std.specs.Prelude.{◌≡◌, ◌<◌, length, slice_index_or, []};
ghost use Rattle.pseudotree.specs.Tree.{path_of, parent_of, children_of};
ghost use Rattle.pseudotree.specs.Preorder.{preorder_of};
ghost use Rattle.pseudotree.specs.Pseudotree.{separator_at};

use dcop_base::{VarId, VarList};
use std::marker::Model;

/// A rooted tree on the variables of a problem, with what the agents need of it: the separator of
/// each variable, and those of its neighbours that are its descendants.
#[derive(Debug, Drop)]
pub struct Tree {
    pub(crate) paths: Vec<VarList>,
    pub(crate) children: Vec<VarList>,
    pub(crate) separators: Vec<VarList>,
    pub(crate) lower: Vec<VarList>,
    pub(crate) preorder: VarList,
}

impl Model for Tree {
    ghost use Rattle.pseudotree.specs.Pseudotree.{RootedTree};
    ghost use Rattle.pseudotree.specs.Parts.{AreParts};

    ghost Value = { RootedTree };

    ghost view = { λ t. record { paths = t.paths.items; separators = t.separators.items; lower = t.lower.items } };

    ghost invariant = { λ t. AreParts t.paths.items t.children.items t.separators.items t.preorder };
}

impl Tree {
    /// The parent of a variable; `None` for the root.
    pub fn parent(&self, var: VarId) -> Option<VarId>
        requires { var < length self.now.paths }
        ensures { result ≡ parent_of self.now.paths var }
    {
        self.paths[var.0 as usize].as_slice().last().copied()
    }

    /// The children of a variable, ascending.
    pub fn children(&self, var: VarId) -> &VarList
        requires { var < length self.now.paths }
        ensures { result.now ≡ children_of self.now.paths var }
    {
        &self.children[var.0 as usize]
    }

    /// All variables in preorder: each comes before its descendants, and children are in ascending
    /// order.
    pub fn preorder(&self) -> &VarList
        ensures { result.now ≡ preorder_of self.now.paths }
    {
        &self.preorder
    }

    /// The separator of a variable, from the root down: its proper ancestors that share a table or
    /// a joint with it or with a descendant of it.
    pub fn separator(&self, var: VarId) -> &VarList
        requires { var < length self.now.paths }
        ensures { result.now ≡ separator_at self.now var }
    {
        &self.separators[var.0 as usize]
    }

    /// The proper ancestors of a variable, from the root down.
    pub fn path(&self, var: VarId) -> &VarList
        requires { var < length self.now.paths }
        ensures { result.now ≡ path_of self.now.paths var }
    {
        &self.paths[var.0 as usize]
    }
    /// The neighbours of a variable that are its descendants, ascending.
    pub(crate) fn lower(&self, var: VarId) -> &VarList
        requires { var < length self.now.lower }
        ensures { result.now ≡ slice_index_or self.now.lower var [] }
    {
        &self.lower[var.0 as usize]
    }
}
