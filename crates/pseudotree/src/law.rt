//! Laws of trees that follow from the definitions alone. Each is the contract of a call that does
//! nothing: code that needs the law calls it.

ghost use Rattle.pseudotree.specs.Pseudotree.{SeparatorsNest};
ghost use Rattle.pseudotree.specs.Owner.{TablesHaveOwners};
ghost use Rattle.pseudotree.specs.DepthFirst.{DepthFirstTreesAreLinked};

/// In every tree, each variable of a child's separator is the child's parent or is in the parent's
/// separator.
pub fn separators_nest()
    ensures { SeparatorsNest }
{}

/// In every pseudotree of a problem, each table belongs to exactly one variable: the variable of
/// the table that has all its other variables among its ancestors.
pub fn tables_have_owners()
    ensures { TablesHaveOwners }
{}

/// The depth-first tree of a problem is a pseudotree of it, and each variable but the root is a
/// neighbour of its parent.
pub fn depth_first_trees_are_linked()
    ensures { DepthFirstTreesAreLinked }
{}
