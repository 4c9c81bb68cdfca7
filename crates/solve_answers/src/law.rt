//! The laws of the answers of DPOP, auto, `drill` and `edit`.

ghost use Rattle.solve_answers.specs.Same.{AutoAnswersAreThoseOfDpop, DpopAnswersAreOne, DrillAnswersAreOne, EditAnswersAreThoseOfDpop, FitAnswersAreOne, SolvedAnswersAreOne};

use dcop_optimum::first_optima_of_trees_are_one;
use pseudotree::depth_first_trees_are_linked;

/// Apart from answers about links between nodes, the answer of `solve --method dpop` depends only
/// on the file, and on whether a certificate is requested. Whatever the other words, such as the
/// number of workers, all texts of one file have the same answer.
///
/// The law is the contract of a call that does nothing: to use the law, call it.
pub fn dpop_answers_are_one()
    ensures { DpopAnswersAreOne }
{
    first_optima_of_trees_are_one();
    depth_first_trees_are_linked();
}

/// With any number of nodes, a solved answer of `solve --method dpop` depends only on the file, and
/// on whether a certificate is requested. Over untrusted wires a call may also answer that links
/// failed or differ.
///
/// The law is the contract of a call that does nothing: to use the law, call it.
pub fn solved_answers_are_one()
    ensures { SolvedAnswersAreOne }
{
    first_optima_of_trees_are_one();
    depth_first_trees_are_linked();
}

/// If nothing is too wide for DPOP in the tree of the problem read, an answer of `solve --method
/// auto`, unless it is about links between nodes, is one of `solve --method dpop`, if a certificate
/// is requested of both or of neither.
///
/// The law is the contract of a call that does nothing: to use the law, call it.
pub fn auto_answers_are_those_of_dpop()
    ensures { AutoAnswersAreThoseOfDpop }
{}

/// If nothing is too wide for DPOP in the tree of the problem read, any two solved answers of
/// `solve --method auto` or `--method dpop` are the same, if both are certified or neither is. This
/// holds for any number of workers and of nodes.
///
/// The law is the contract of a call that does nothing: to use the law, call it.
pub fn fit_answers_are_one()
    ensures { FitAnswersAreOne }
{
    first_optima_of_trees_are_one();
    depth_first_trees_are_linked();
}

/// All solved answers of `drill --method dpop` to words that ask for the same problem are the same,
/// with any number of workers and of nodes. So each run has the same summary.
///
/// The law is the contract of a call that does nothing: to use the law, call it.
pub fn drill_answers_are_one()
    ensures { DrillAnswersAreOne }
{
    first_optima_of_trees_are_one();
    depth_first_trees_are_linked();
}

/// An optimum that `edit` answers has the values and the cost that `solve --method dpop` reports
/// for a text that declares the problem as edited so far, for either goal.
///
/// The law is the contract of a call that does nothing: to use the law, call it.
pub fn edit_answers_are_those_of_dpop()
    ensures { EditAnswersAreThoseOfDpop }
{
    first_optima_of_trees_are_one();
    depth_first_trees_are_linked();
}
