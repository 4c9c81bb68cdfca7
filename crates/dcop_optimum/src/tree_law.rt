//! Laws of optima on trees, which follow from the definitions alone. Each is the contract of a call
//! that does nothing: code that needs the law calls it.

ghost use Rattle.dcop_optimum.specs.Subtree.{SubtreeOptimaAreOne};
ghost use Rattle.dcop_optimum.specs.Decomposition.{DecompositionLaw, SubtreeOptimaReadSeparators};
ghost use Rattle.dcop_optimum.specs.Decomposition.{SeparatorsDecompose};
ghost use Rattle.dcop_optimum.specs.Enclosing.{RootBoundsEncloseOptima};
ghost use Rattle.dcop_optimum.specs.TreeOptimum.{FirstOptimaOfTreesAreOne, BestChoicesAreFirst};
ghost use Rattle.dcop_optimum.specs.Certificate.{TablesOnPathsAreOwn, LowerTablesBoundOptima};
ghost use Rattle.dcop_optimum.specs.Certificate.{CertificatesShowOptima};
ghost use Rattle.dcop_optimum.specs.OptimumTables.{OptimaMakeCertificates, CostsAreWithinCap};

/// Every variable of a tree has exactly one subtree optimum, for all values of its ancestors.
pub fn subtree_optima_are_one()
    ensures { SubtreeOptimaAreOne }
{}

/// The decomposition law: a subtree optimum is the least, over the values of its variable, of the
/// cost of the variable's own tables plus its children's subtree optima; the root's is the optimum.
pub fn subtree_optima_decompose()
    ensures { DecompositionLaw }
{}

/// A subtree optimum depends on the values of the separator alone.
pub fn subtree_optima_read_separators()
    ensures { SubtreeOptimaReadSeparators }
{}

/// The separator of a variable consists of those of its ancestors that are its neighbours or are in
/// a child's separator.
pub fn separators_decompose()
    ensures { SeparatorsDecompose }
{}

/// If the subtree optimum of the root of a pseudotree is between two bounds, so is the optimum of
/// the problem.
pub fn root_bounds_enclose_optima()
    ensures { RootBoundsEncloseOptima }
{}

/// Every pseudotree of a problem has exactly one first optimum: the optimal assignment whose
/// values, read in preorder, come first.
pub fn first_optima_of_trees_are_one()
    ensures { FirstOptimaOfTreesAreOne }
{}

/// If each variable of a pseudotree has, given the values of its ancestors, the lowest value at
/// which its own tables and its children's subtree optima cost least together, then the values are
/// the first optimum of the tree.
pub fn best_choices_are_first()
    ensures { BestChoicesAreFirst }
{}

/// In a pseudotree of a problem, a table names a variable and otherwise only its ancestors exactly
/// if this variable is the deepest of the table.
pub fn tables_on_paths_are_own()
    ensures { TablesOnPathsAreOwn }
{}

/// If in a pseudotree each cell of a variable's table is, for each value of the variable, at most
/// the cost of the variable's own tables plus its children's cells, then each cell is at most the
/// subtree optimum at its values, however the tables were made. Such tables over the separators are
/// lower tables; a certificate of tables that holds has them.
pub fn lower_tables_bound_optima()
    ensures { LowerTablesBoundOptima }
{}

/// If a certificate of tables holds, its values are optimal.
pub fn certificates_show_optima()
    ensures { CertificatesShowOptima }
{}

/// Tables of the subtree optima and optimal values make a certificate that holds.
pub fn optima_make_certificates()
    ensures { OptimaMakeCertificates }
{}

/// The cost of a subtree's tables is at most the cap, and so is the cost of a variable's own tables
/// plus its children's subtree optima.
pub fn costs_are_within_cap()
    ensures { CostsAreWithinCap }
{}
