//! Laws of slices and cuts.

ghost use Rattle.run_laws.specs.Slice.{SlicesAreProblems, SlicesAreOne, UncutSlicesAreWhole};
ghost use Rattle.run_laws.specs.Turns.{TurnsAreInOrder};
ghost use Rattle.run_laws.specs.Slicing.{SlicingLaw};
ghost use Rattle.run_laws.specs.Trees.{SlicesKeepTrees};
ghost use Rattle.run_laws.specs.CutSet.{CutSetsAreOne, SlicesHaveCounted, CutSetsMakeNarrow};
ghost use Rattle.run_laws.specs.Certificate.{CutCertificatesShowOptima, TurnsMakeCertificates};
ghost use Rattle.run_laws.specs.Kept.{CutAnswersAreOptimal, CutAnswersAreOne};

/// A slice of a problem is a problem.
pub fn slices_are_problems()
    ensures { SlicesAreProblems }
{}

/// A problem with the sizes, the joints and the cells of a given slice, and with tables that have
/// no fault, is the one that `slice_of` gives. A table without a fault has exactly as many cells as
/// its sizes ask for.
pub fn slices_are_one()
    ensures { SlicesAreOne }
{}

/// If nothing is cut, the slice is the problem itself.
pub fn uncut_slices_are_whole()
    ensures { UncutSlicesAreWhole }
{}

/// A slice has as many variables as its problem and the same graph. So it has the same trees, with
/// the same separators.
pub fn slices_keep_trees()
    ensures { SlicesKeepTrees }
{}

/// The turns of a cut are all lists of values of its variables, each once, in lexicographic order.
pub fn turns_are_in_order()
    ensures { TurnsAreInOrder }
{}

/// The slicing law: the optimum of a problem is the least of its slices' optima, over all lists of
/// values of the cut variables.
pub fn optima_are_least_of_slices()
    ensures { SlicingLaw }
{}

/// If no variable has more values than a joined table may have cells, the rule that chooses the
/// variables to be cut gives exactly one list of them on each pseudotree.
pub fn cut_sets_are_one()
    ensures { CutSetsAreOne }
{}

/// The joined tables of a slice, and all tables sent, have as many cells as are counted on the
/// problem itself if the size of each cut variable is taken as 1.
pub fn slices_have_counted()
    ensures { SlicesHaveCounted }
{}

/// No joined table of a slice by a cut set exceeds the limit. So the tree is narrow there if the
/// limit is at most 2^20.
pub fn cut_sets_make_narrow()
    ensures { CutSetsMakeNarrow }
{}

/// The answer of a cut is an optimal assignment of the problem: from the first turn of least cost
/// it has the turn's values for the cut variables, and the first optimum of the turn's slice for
/// the others.
pub fn cut_answers_are_optimal()
    ensures { CutAnswersAreOptimal }
{}

/// A cut has exactly one answer on a pseudotree of the problem.
pub fn cut_answers_are_one()
    ensures { CutAnswersAreOne }
{}

/// If a certificate of a cut holds, its values are optimal.
pub fn cut_certificates_show_optima()
    ensures { CutCertificatesShowOptima }
{}

/// Certificates of all turns of a cut, and optimal values, make a certificate of the cut that
/// holds.
pub fn turns_make_certificates()
    ensures { TurnsMakeCertificates }
{}
